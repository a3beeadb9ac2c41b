//! What the words after `structure` ask for.
ghost use Rattle.std.specs.Prelude.{◌≡◌, map};
ghost use Rattle.sdl_drawing_text.specs.Words as rule;

use crate::commands::Form;

/// The form that the words after `structure` ask for: a file, or `--dot` and a file. None where they are wrong arguments.
pub fn form_of(words: &[&str]) -> Option<Form>
    ensures { result ≡ rule.form_of (map (λ w. w.now) words.now) }
{
    match words {
        [file] => of_path(Form::Svg, file),
        [option, file] => with_option(option, file),
        _ => None,
    }
}

/// An option and a path.
fn with_option(option: &str, path: &str) -> Option<Form>
    ensures { result ≡ rule.with_option option.now path.now }
{
    if option == "--dot" {
        of_path(Form::Dot, path)
    } else {
        None
    }
}

/// This form, of a path that is no option.
fn of_path(form: Form, path: &str) -> Option<Form>
    ensures { result ≡ rule.of_path form path.now }
{
    if path.starts_with("--") {
        None
    } else {
        Some(form)
    }
}
