//! A message sequence chart as a value. Lengths are in pixels, from the left upper corner of the picture. Rows are those of the
//! page, which count from 0.
use sdl_signal::Origin;

/// How many letters of a signal have room between two lifelines. A writer cuts what is longer.
pub const SIGNAL_LETTERS: usize = 20;

/// A place in the picture.
#[derive(Clone, Copy)]
pub struct Point {
    pub x: usize,
    pub y: usize,
}

/// What a text is, and which part of it stands at its place.
#[derive(Clone, Copy)]
pub enum Style {
    /// A signal, from its beginning on.
    Begin,
    /// A signal, around its middle.
    Middle,
    /// A signal, up to its end.
    End,
    /// A signal that waited in the port before it was consumed here, from its beginning on.
    Waited,
    /// A remark, from its beginning on.
    Remark,
}

/// A text, by the foot of its letters. It has letters, digits and signs of ASCII, none of which is special in XML.
#[derive(Drop)]
pub struct Text {
    pub at: Point,
    pub style: Style,
    pub text: String,
}

/// A shape that belongs to an event.
#[derive(Drop)]
pub enum Shape {
    /// A transition, from its upper to its lower end.
    Bar {
        x: usize,
        top: usize,
        bottom: usize,
    },
    /// A state, by its middle and half its width.
    State {
        at: Point,
        half: usize,
        name: String,
    },
    /// The creation of an instance: a dashed arrow.
    Create {
        tail: Point,
        head: Point,
    },
    /// An output without a route: a line, with a filled circle at its head.
    NoRoute {
        tail: Point,
        head: Point,
    },
    Text(Text),
}

/// An event of the page: its row, the place on its lifeline where it begins, and its shapes.
#[derive(Drop)]
pub struct Event {
    pub row: usize,
    pub at: Point,
    pub shapes: Vec<Shape>,
}

/// What stands at the head of a message's line.
#[derive(Clone, Copy, PartialEq, Eq)]
pub enum Tip {
    /// The head of an arrow: the item arrived there.
    Arrow,
    /// A filled circle: the item never arrives, or was discarded.
    Lost,
    /// An open circle: the item arrives below this part of the run.
    Later,
    /// The item is not drawn, nor are its texts: it stays among the instances of `others`.
    Hidden,
}

/// A message: an item, the row of its output, the row of its arrival or discard where that is drawn, and a line from its tail to its head. The
/// line goes around at the right where both are on one lifeline.
#[derive(Drop)]
pub struct Message {
    pub origin: Origin,
    pub from: usize,
    pub to: Option<usize>,
    pub tail: Point,
    pub head: Point,
    pub tip: Tip,
    pub texts: Vec<Text>,
}

/// A lifeline: its name in a box of this half width, whose middle is its top, and what stands over the box.
#[derive(Drop)]
pub struct Lifeline {
    pub name: String,
    pub over: String,
    pub x: usize,
    pub half: usize,
    pub top: usize,
    pub bottom: usize,
    /// Whether it is no instance's: it is dotted then, and has no sign at its end.
    pub dotted: bool,
    /// Whether a cross stands at its end, and else a bar.
    pub stopped: bool,
    /// How many signals wait in the port at its end.
    pub waiting: usize,
}

/// The chart of a part of a run. Shapes lie on those before them: lifelines, states, events, messages, names.
#[derive(Drop)]
pub struct Drawing {
    pub width: usize,
    pub height: usize,
    /// From the left.
    pub lifelines: Vec<Lifeline>,
    /// The states of instances above the first event.
    pub states: Vec<Shape>,
    /// By row, one for each row of the part.
    pub events: Vec<Event>,
    /// Of the items that are output in this part, in the order of their outputs.
    pub messages: Vec<Message>,
    /// Of the items that are output above this part and arrive in it, in the order of their arrivals. Their tails are at the left border.
    pub incoming: Vec<Message>,
    /// The heights at which the names of the lifelines stand once more.
    pub names: Vec<usize>,
}
