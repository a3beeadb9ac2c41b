//! The words that no name can be.
use sdl_listing_tokens::is_reserved;

static WORDS: [&str; 26] = [
    "output",
    "create",
    "next",
    "stop",
    "if",
    "then",
    "else",
    "fi",
    "to",
    "via",
    "channel",
    "and",
    "or",
    "xor",
    "not",
    "mod",
    "rem",
    "true",
    "false",
    "null",
    "env",
    "self",
    "parent",
    "offspring",
    "sender",
    "serial",
];

/// Names that are near to them.
static NAMES: [&str; 10] = [
    "", "Output", "SELF", "outputs", "i", "ifs", "mod ", "modulo", "state", "timer",
];

#[test]
fn words_are_reserved_in_small_letters_alone(rt: HostRuntime) {
    for word in WORDS.iter() {
        assert!(rt; is_reserved(word.as_bytes()), "{word}");
    }
    for name in NAMES.iter() {
        assert!(rt; !is_reserved(name.as_bytes()), "{name}");
    }
}
