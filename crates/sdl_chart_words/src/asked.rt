//! What the options of `chart` ask for.
ghost use Rattle.std.specs.Prelude.{◌≡◌, map, option_map};
ghost use Rattle.sdl_chart_words.specs.Words as rule;

/// The form of a chart.
#[derive(Clone, Copy)]
pub enum ChartForm {
    /// A line for each event.
    Text,
    /// A drawing.
    Svg,
    /// The textual form of Z.120.
    Msc,
}

/// What the options of `chart` ask for.
#[derive(Clone, Copy)]
pub struct Request {
    /// Runs on one thread.
    pub serial: bool,
    /// The form, where one is named; else it is lines.
    pub form: Option<ChartForm>,
    /// The first event that is written and the last one, which count from 1.
    pub from: Option<u32>,
    pub to: Option<u32>,
    /// Whether sets are named, which alone are drawn.
    pub only: bool,
    /// Draws one lifeline for all instances of a set.
    pub by_set: bool,
}

/// An option behind which a number or a set stands.
#[derive(Clone, Copy)]
pub enum ValueOption {
    From,
    To,
    Only,
}

/// What the words so far ask for, and the option that awaits what it names.
#[derive(Clone, Copy)]
pub struct Reading {
    pub request: Request,
    pub awaited: Option<ValueOption>,
}

/// The most events of one drawing. Many viewers stop at a height of 32767 pixels.
const MOST_DRAWN: u64 = 500;

/// What the words between `chart` and its files ask for, and None where they are wrong.
pub fn request_of(words: &[&str]) -> Option<Request>
    ensures { result ≡ rule.request_of (map (λ w. w.now) words.now) }
{
    match with_words(at_rest(nothing()), words) {
        Some(request) => proper(request),
        None => None,
    }
}

/// A chart of all events, on more than one thread.
fn nothing() -> Request
    ensures { result ≡ rule.nothing }
{
    Request {
        serial: false,
        form: None,
        from: None,
        to: None,
        only: false,
        by_set: false,
    }
}

/// What is asked for, where its parts suit one another.
fn proper(request: Request) -> Option<Request>
    ensures { result ≡ rule.proper request }
{
    if in_order(request.from.unwrap_or(1), request.to) && suits(request, request.form) {
        Some(request)
    } else {
        None
    }
}

/// Whether the last event is not before the first.
fn in_order(first: u32, last: Option<u32>) -> bool
    ensures { result ≡ rule.in_order first last }
{
    match last {
        Some(last) => !(last < first),
        None => true,
    }
}

/// Whether a drawing has room for the events.
fn are_few(first: u32, last: Option<u32>) -> bool
    ensures { result ≡ rule.are_few first last }
{
    match last {
        Some(last) => u64::from(last) < u64::from(first) + MOST_DRAWN,
        None => true,
    }
}

/// Whether the form can show what is asked for.
fn suits(request: Request, form: Option<ChartForm>) -> bool
    ensures { result ≡ rule.suits request form }
{
    match form {
        Some(ChartForm::Svg) => are_few(request.from.unwrap_or(1), request.to),
        Some(ChartForm::Msc) => !(chooses_sets(request) || chooses_events(request)),
        Some(ChartForm::Text) => !chooses_sets(request),
        None => !chooses_sets(request),
    }
}

fn chooses_sets(request: Request) -> bool
    ensures { result ≡ rule.chooses_sets request }
{
    request.only || request.by_set
}

fn chooses_events(request: Request) -> bool
    ensures { result ≡ rule.chooses_events request }
{
    request.from.is_some() || request.to.is_some()
}

/// What the words ask for beside what was read.
fn with_words(reading: Reading, words: &[&str]) -> Option<Request>
    ensures { result ≡ rule.with_words reading (map (λ w. w.now) words.now) }
{
    match words {
        [] => match reading.awaited {
            Some(_) => None,
            None => Some(reading.request),
        },
        [word, rest @ ..] => match with_word(reading, word) {
            Some(next) => with_words(next, rest),
            None => None,
        },
    }
}

/// The same for one word: an option, or what one awaits.
fn with_word(reading: Reading, word: &str) -> Option<Reading>
    ensures { result ≡ rule.with_word reading word.now }
{
    match reading.awaited {
        Some(option) => resting(valued(reading.request, option, word)),
        None => with_option(reading.request, word),
    }
}

/// Nothing is awaited.
fn at_rest(request: Request) -> Reading
    ensures { result ≡ rule.at_rest request }
{
    Reading {
        request,
        awaited: None,
    }
}

fn resting(request: Option<Request>) -> Option<Reading>
    ensures { result ≡ option_map rule.at_rest request }
{
    match request {
        Some(found) => Some(at_rest(found)),
        None => None,
    }
}

fn awaiting(request: Request, option: ValueOption) -> Reading
    ensures { result ≡ rule.awaiting request option }
{
    Reading {
        request,
        awaited: Some(option),
    }
}

/// What the word behind an option asks for.
fn valued(request: Request, option: ValueOption, word: &str) -> Option<Request>
    ensures { result ≡ rule.valued request option word.now }
{
    match option {
        ValueOption::From => begun(request, number_of(word)),
        ValueOption::To => ended(request, number_of(word)),
        ValueOption::Only => named(request, word),
    }
}

fn begun(request: Request, number: Option<u32>) -> Option<Request>
    ensures { result ≡ rule.begun request number }
{
    match number {
        Some(found) => Some(Request {
            from: Some(found),
            ..request
        }),
        None => None,
    }
}

fn ended(request: Request, number: Option<u32>) -> Option<Request>
    ensures { result ≡ rule.ended request number }
{
    match number {
        Some(found) => Some(Request {
            to: Some(found),
            ..request
        }),
        None => None,
    }
}

fn named(request: Request, word: &str) -> Option<Request>
    ensures { result ≡ rule.named request word.now }
{
    if word.starts_with("--") {
        None
    } else {
        Some(Request {
            only: true,
            ..request
        })
    }
}

/// An option.
fn with_option(request: Request, word: &str) -> Option<Reading>
    ensures { result ≡ rule.with_option request word.now }
{
    if word == "--from" {
        Some(awaiting(request, ValueOption::From))
    } else if word == "--to" {
        Some(awaiting(request, ValueOption::To))
    } else if word == "--only" {
        Some(awaiting(request, ValueOption::Only))
    } else {
        resting(alone(request, word))
    }
}

/// An option that awaits nothing.
fn alone(request: Request, word: &str) -> Option<Request>
    ensures { result ≡ rule.alone request word.now }
{
    if word == "--serial" {
        Some(Request {
            serial: true,
            ..request
        })
    } else if word == "--by-set" {
        Some(Request {
            by_set: true,
            ..request
        })
    } else {
        with_form(request, word)
    }
}

fn with_form(request: Request, word: &str) -> Option<Request>
    ensures { result ≡ rule.with_form request word.now }
{
    if word == "--text" {
        formed(request, ChartForm::Text, request.form)
    } else if word == "--svg" {
        formed(request, ChartForm::Svg, request.form)
    } else if word == "--msc" {
        formed(request, ChartForm::Msc, request.form)
    } else {
        None
    }
}

/// The same with a form, where that is no other than the one before.
fn formed(request: Request, form: ChartForm, before: Option<ChartForm>) -> Option<Request>
    ensures { result ≡ rule.formed request form before }
{
    match before {
        None => Some(Request {
            form: Some(form),
            ..request
        }),
        Some(before) => {
            if same_form(form, before) {
                Some(request)
            } else {
                None
            }
        }
    }
}

fn same_form(one: ChartForm, other: ChartForm) -> bool
    ensures { result ≡ rule.same_form one other }
{
    match one {
        ChartForm::Text => is_text(other),
        ChartForm::Svg => is_svg(other),
        ChartForm::Msc => is_msc(other),
    }
}

fn is_text(form: ChartForm) -> bool
    ensures { result ≡ rule.same_form ChartForm.Text form }
{
    match form {
        ChartForm::Text => true,
        ChartForm::Svg => false,
        ChartForm::Msc => false,
    }
}

fn is_svg(form: ChartForm) -> bool
    ensures { result ≡ rule.same_form ChartForm.Svg form }
{
    match form {
        ChartForm::Text => false,
        ChartForm::Svg => true,
        ChartForm::Msc => false,
    }
}

fn is_msc(form: ChartForm) -> bool
    ensures { result ≡ rule.same_form ChartForm.Msc form }
{
    match form {
        ChartForm::Text => false,
        ChartForm::Svg => false,
        ChartForm::Msc => true,
    }
}

/// The number of this word, which is at least 1.
fn number_of(word: &str) -> Option<u32>
    ensures { result ≡ rule.number_of word.now }
{
    match with_digits(0, word.as_bytes()) {
        Some(number) => positive(number),
        None => None,
    }
}

fn positive(number: u32) -> Option<u32>
    ensures { result ≡ rule.positive number }
{
    if number == 0 { None } else { Some(number) }
}

/// The number with these digits behind it, where it is not too great. (`parse` reads a plus sign too.)
fn with_digits(number: u32, digits: &[u8]) -> Option<u32>
    ensures { result ≡ rule.with_digits number digits.now }
{
    match digits {
        [] => Some(number),
        [digit, rest @ ..] => match with_digit(number, *digit) {
            Some(more) => with_digits(more, rest),
            None => None,
        },
    }
}

fn with_digit(number: u32, digit: u8) -> Option<u32>
    ensures { result ≡ rule.with_digit number digit }
{
    if digit < b'0' {
        return None;
    }
    if digit > b'9' {
        return None;
    }
    let more = u64::from(number) * 10 + u64::from(digit - b'0');
    if more < 4_294_967_296 {
        Some(more as u32)
    } else {
        None
    }
}
