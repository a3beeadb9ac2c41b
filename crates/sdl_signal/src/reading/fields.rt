//! A line, cut into its fields, and its parts.
ghost use Rattle.std.specs.Prelude.{◌≡◌, ◌≤◌, IfSome, IfNone, map, take, length, [], option_map};
ghost use Rattle.std.specs.List.{Contains};
ghost use Rattle.sdl_signal.specs.Reading.{fields, value_fields, to_field};

use arrayvec::ArrayVec;

/// One more than the fields of the longest line: a gate, a signal, four values and a TO part are eight.
pub(crate) const MANY: usize = 9;

/// The fields of a line, of which only the first nine are kept: a line with as many has too many. `None` where
/// one is empty.
pub(crate) fn fields_of(line: &[u8]) -> Option<ArrayVec<&[u8], MANY>>
    ensures cut { IfSome result (λ found. map (λ f. f.now) found.items ≡ take 9 (fields line.now)) }
    ensures full { IfSome result (λ _. ¬ Contains (fields line.now) []) }
    ensures empty { IfNone result (Contains (fields line.now) []) }
{
    let mut found = ArrayVec::new();
    for field in line.split(|b| *b == b' ') {
        if field.is_empty() {
            return None;
        }
        if !found.is_full() {
            found.push(field);
        }
    }
    Some(found)
}

/// The fields after the second: those of the values, and that of the TO part, where there is one.
pub(crate) fn parts<'f, 'a>(found: &'f [&'a [u8]]) -> (&'f [&'a [u8]], Option<&'a [u8]>)
    requires { 2 ≤ length found.now }
    ensures values { map (λ f. f.now) result.0.now ≡ value_fields (map (λ f. f.now) found.now) }
    ensures to { option_map (λ f. f.now) result.1 ≡ to_field (map (λ f. f.now) found.now) }
{
    let count = found.len();
    if count >= 4 && found[count - 2] == b"to".as_slice() {
        (&found[2..count - 2], Some(found[count - 1]))
    } else {
        (&found[2..], None)
    }
}
