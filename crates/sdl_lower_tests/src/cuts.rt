//! Texts that are cut into tokens, and texts that hold a byte of no token.
use sdl_listing_tokens::{CutFault, Kind, Token, cut, position_of};
use std::alloc::{AllocError, Global};
use std::str;

/// Texts, each with its tokens: the line and the column, what it is, and its bytes. A star tells that a new line is before it. Or with
/// the line and the column of the first byte that no token has.
static TEXTS: [(&[u8], &str); 39] = [
    (b"", ""),
    (b" \t\n\n ", ""),
    (b"# all of it := $", ""),
    (b"#\n", ""),
    (
        b"level := level + 20",
        "1:1 name level | 1:7 Becomes := | 1:10 name level | 1:16 Plus + | 1:18 number 20",
    ),
    (
        b"output glow(level) to sender via socket;",
        "1:1 Output output | 1:8 name glow | 1:12 Open ( | 1:13 name level | 1:18 Close ) | 1:20 To to | 1:23 Sender sender | 1:30 Via via | 1:34 name socket | 1:40 Semicolon ;",
    ),
    (
        b"press(n): user:=sender\n\tnext -",
        "1:1 name press | 1:6 Open ( | 1:7 name n | 1:8 Close ) | 1:9 Colon : | 1:11 name user | 1:15 Becomes := | 1:17 Sender sender | *2:2 Next next | 2:7 Minus -",
    ),
    (
        b"stop # $ is no byte here\n\n  # nor here: \xc3\xa9\n next lit",
        "1:1 Stop stop | *4:2 Next next | 4:7 name lit",
    ),
    (b"a#b\nc", "1:1 name a | *2:1 name c"),
    (
        b"a:=b/=c<=d>=e<f>g=h",
        "1:1 name a | 1:2 Becomes := | 1:4 name b | 1:5 Differs /= | 1:7 name c | 1:8 AtMost <= | 1:10 name d | 1:11 AtLeast >= | 1:13 name e | 1:14 Less < | 1:15 name f | 1:16 Greater > | 1:17 name g | 1:18 Equal = | 1:19 name h",
    ),
    (
        b":=: =/= / => =< -1--2",
        "1:1 Becomes := | 1:3 Colon : | 1:5 Equal = | 1:6 Differs /= | 1:9 Slash / | 1:11 Equal = | 1:12 Greater > | 1:14 Equal = | 1:15 Less < | 1:17 Minus - | 1:18 number 1 | 1:19 Minus - | 1:20 Minus - | 1:21 number 2",
    ),
    (
        b"if on{stop}else{x:=(1+2)*3/4}",
        "1:1 If if | 1:4 name on | 1:6 OpenBrace { | 1:7 Stop stop | 1:11 CloseBrace } | 1:12 Else else | 1:16 OpenBrace { | 1:17 name x | 1:18 Becomes := | 1:20 Open ( | 1:21 number 1 | 1:22 Plus + | 1:23 number 2 | 1:24 Close ) | 1:25 Times * | 1:26 number 3 | 1:27 Slash / | 1:28 number 4 | 1:29 CloseBrace }",
    ),
    (
        b"outputs Output output_1 if0 0if 007",
        "1:1 name outputs | 1:9 name Output | 1:16 name output_1 | 1:25 name if0 | 1:29 number 0 | 1:30 If if | 1:33 number 007",
    ),
    (
        b"99999999999999999999999 mod 1000",
        "1:1 number 99999999999999999999999 | 1:25 Modulo mod | 1:29 number 1000",
    ),
    (
        b"output create next stop if then else fi to via channel and or xor not mod rem true false null env self parent offspring sender serial",
        "1:1 Output output | 1:8 Create create | 1:15 Next next | 1:20 Stop stop | 1:25 If if | 1:28 Then then | 1:33 Else else | 1:38 Fi fi | 1:41 To to | 1:44 Via via | 1:48 Channel channel | 1:56 And and | 1:60 Or or | 1:63 Xor xor | 1:67 Not not | 1:71 Modulo mod | 1:75 Remainder rem | 1:79 True true | 1:84 False false | 1:90 Null null | 1:95 Env env | 1:99 SelfPid self | 1:104 Parent parent | 1:111 Offspring offspring | 1:121 Sender sender | 1:128 Serial serial",
    ),
    (
        b":= /= <= >= - + * / = < > ( ) { } , ; :",
        "1:1 Becomes := | 1:4 Differs /= | 1:7 AtMost <= | 1:10 AtLeast >= | 1:13 Minus - | 1:15 Plus + | 1:17 Times * | 1:19 Slash / | 1:21 Equal = | 1:23 Less < | 1:25 Greater > | 1:27 Open ( | 1:29 Close ) | 1:31 OpenBrace { | 1:33 CloseBrace } | 1:35 Comma , | 1:37 Semicolon ; | 1:39 Colon :",
    ),
    (b"$", "bad 1:1"),
    (b"press: level := 20 $; next lit", "bad 1:20"),
    (b"stop\n  ?", "bad 2:3"),
    (b"_a", "bad 1:1"),
    (b"a.b", "bad 1:2"),
    (b"x & y", "bad 1:3"),
    (b"a ? $", "bad 1:3"),
    (b"# $\n\t!", "bad 2:2"),
    (b"stop\r\nnext lit", "bad 1:5"),
    (b"level := \"one\"", "bad 1:10"),
    (b"next l[0]", "bad 1:7"),
    (b"\xc3\xa9 := 1", "bad 1:1"),
    (b"level := 1 ~ 2", "bad 1:12"),
    (b"a\\b", "bad 1:2"),
    (b"'a'", "bad 1:1"),
    (b"x | y", "bad 1:3"),
    (b"`", "bad 1:1"),
    (b"1_000", "bad 1:2"),
    // Bytes that are no text stand in comments alone.
    (b"# \xff\xfe\nstop", "*2:1 Stop stop"),
    (b"stop \xff", "bad 1:6"),
    (b"a\x00b", "bad 1:2"),
    (b"# \xff\xfe\nstop\x7f", "bad 2:5"),
    (b"\xef\xbb\xbfstop", "bad 1:1"),
];

fn kind_text(alloc: Global, kind: Kind) -> Result<String, AllocError> {
    match kind {
        Kind::Integer => String::from_str(alloc, "number"),
        Kind::Name => String::from_str(alloc, "name"),
        Kind::Word(word) => format!(in alloc; "{word:?}"),
        Kind::Sign(sign) => format!(in alloc; "{sign:?}"),
    }
}

/// The line and the column.
fn place_text(alloc: Global, text: &[u8], start: usize) -> Result<String, AllocError> {
    if start > text.len() {
        return String::from_str(alloc, "outside");
    }
    let place = position_of(text, start);
    let line = place.line;
    let column = place.column;
    format!(in alloc; "{line}:{column}")
}

fn token_text(alloc: Global, text: &[u8], token: Token) -> Result<String, AllocError> {
    let mark = if token.fresh { "*" } else { "" };
    let place = place_text(alloc, text, token.start)?;
    let kind = kind_text(alloc, token.kind)?;
    let word = match str::from_utf8(token.text) {
        Ok(word) => word,
        Err(_) => "?",
    };
    let place = place.as_str();
    let kind = kind.as_str();
    format!(in alloc; "{mark}{place} {kind} {word}")
}

fn tokens_text(alloc: Global, text: &[u8], tokens: &[Token]) -> Result<String, AllocError> {
    let mut out = String::new(alloc);
    let mut between = "";
    for token in tokens {
        let one = token_text(alloc, text, *token)?;
        out.push_str(between)?;
        out.push_str(one.as_str())?;
        between = " | ";
    }
    Ok(out)
}

/// The tokens of the text, or where the byte stands that none has.
fn said(alloc: Global, text: &[u8]) -> Result<String, AllocError> {
    match cut(alloc, text) {
        Ok(tokens) => tokens_text(alloc, text, tokens.as_slice()),
        Err(CutFault::BadByte(start)) => {
            let place = place_text(alloc, text, start)?;
            let place = place.as_str();
            format!(in alloc; "bad {place}")
        }
        Err(CutFault::Memory) => Err(AllocError),
    }
}

#[test]
fn texts_have_their_tokens_or_a_bad_byte(rt: HostRuntime) -> Result<(), AllocError> {
    for (text, wanted) in TEXTS.iter() {
        let said = said(rt.alloc(), text)?;
        assert!(rt; said.as_str() == *wanted, "{wanted}");
    }
    Ok(())
}

/// How many tokens the text has, and where the last begins.
fn counted(alloc: Global, text: &[u8]) -> Result<(usize, usize), AllocError> {
    match cut(alloc, text) {
        Ok(tokens) => {
            let last = match tokens.last() {
                Some(last) => last.start,
                None => 0,
            };
            Ok((tokens.len(), last))
        }
        Err(CutFault::BadByte(start)) => Ok((0, start)),
        Err(CutFault::Memory) => Err(AllocError),
    }
}

/// Run it with each allocation refused in turn: either all tokens come, or memory is named.
#[test]
fn a_long_text_has_all_its_tokens(rt: HostRuntime) -> Result<(), AllocError> {
    let text = b"stop;\n".repeat(rt.alloc(), 1_000)?;
    let found = counted(rt.alloc(), text.as_slice())?;
    assert!(rt; found == (2_000, 5_998));
    Ok(())
}
