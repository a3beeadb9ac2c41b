//! What the names of a text may mean.
ghost use Rattle.std.specs.Prelude.{◌≡◌, ◌<◌, ◌≤◌, length, IfSome, position, bytes_eq};
ghost use Rattle.sdl_listing_expression_text.specs.Meanings as rule;
ghost use Rattle.sdl_listing_expression_text.specs.Meanings.{is_gate_of, is_gate_named, is_way_out, has_signal};

use arrayvec::ArrayVec;
use sdl_listing_expression::Expr;
use sdl_signal::{ChannelId, GateId, Name, SetId, SignalId, Sort, StateId, Value};
use sdl_structure_parts::{Channel, Gate, Owner, Set, SignalDecl, Structure};

/// A variable of the instances of a set, with its value at their start.
#[derive(Clone, Copy, Default)]
pub struct Variable {
    pub name: Name,
    pub sort: Sort,
    pub initial: Value,
}

/// A constant: an Integer or a Boolean.
#[derive(Clone, Copy)]
pub struct Constant {
    pub name: Name,
    pub value: Value,
}

/// For which set of a structure a text is read, and what its behaviour declares.
#[derive(Clone, Copy)]
pub struct Setting<'a> {
    pub structure: &'a Structure,
    pub set: SetId,
    pub constants: &'a [Constant],
    pub variables: &'a ArrayVec<Variable, 8>,
    pub states: &'a ArrayVec<Name, 16>,
}

/// What the names of one transition's text mean.
#[derive(Clone, Copy)]
pub struct Meanings<'a> {
    pub setting: Setting<'a>,
    /// The state of the row, and none for a start.
    pub state: Option<StateId>,
    /// The names that the head gives to the signal's parameters, by their places.
    pub names: &'a [&'a [u8]],
    /// The sorts of the signal's parameters.
    pub sorts: &'a [Sort],
}

fn place_of_signal(signals: &[SignalDecl], text: &[u8]) -> Option<usize>
    ensures place { result ≡ position (λ x. bytes_eq x.name.bytes text.now) signals.now }
    ensures within { IfSome result (λ i. i < length signals.now) }
{
    signals.iter().position(|x| x.name.as_bytes() == text)
}

fn place_of_set(sets: &[Set], text: &[u8]) -> Option<usize>
    ensures place { result ≡ position (λ x. bytes_eq x.name.bytes text.now) sets.now }
    ensures within { IfSome result (λ i. i < length sets.now) }
{
    sets.iter().position(|x| x.name.as_bytes() == text)
}

fn place_of_channel(channels: &[Channel], text: &[u8]) -> Option<usize>
    ensures place { result ≡ position (λ x. bytes_eq x.name.bytes text.now) channels.now }
    ensures within { IfSome result (λ i. i < length channels.now) }
{
    channels.iter().position(|x| x.name.as_bytes() == text)
}

/// Whether the gate is the set's.
fn is_gate_of(gate: &Gate, set: SetId) -> bool
    ensures { result ≡ is_gate_of set gate.now }
{
    match gate.owner {
        Owner::System => false,
        Owner::Block(_) => false,
        Owner::Set(owner) => owner.0 == set.0,
    }
}

/// Whether the gate is the set's, and has this name.
fn is_gate_named(gate: &Gate, set: SetId, text: &[u8]) -> bool
    ensures { result ≡ is_gate_named set text.now gate.now }
{
    is_gate_of(gate, set) && gate.name.as_bytes() == text
}

fn place_of_gate(gates: &[Gate], set: SetId, text: &[u8]) -> Option<usize>
    ensures place { result ≡ position (λ x. is_gate_named set text.now x) gates.now }
    ensures within { IfSome result (λ i. i < length gates.now) }
{
    gates.iter().position(|x| is_gate_named(x, set, text))
}

fn place_of_state(states: &[Name], text: &[u8]) -> Option<usize>
    ensures place { result ≡ position (λ x. bytes_eq x.bytes text.now) states.now }
    ensures within { IfSome result (λ i. i < length states.now) }
{
    states.iter().position(|x| x.as_bytes() == text)
}

/// The place of the variable of this name.
pub fn place_of_variable(variables: &[Variable], text: &[u8]) -> Option<usize>
    ensures place { result ≡ position (λ x. bytes_eq x.name.bytes text.now) variables.now }
    ensures within { IfSome result (λ i. i < length variables.now) }
{
    variables.iter().position(|x| x.name.as_bytes() == text)
}

/// The place of the constant of this name.
pub fn place_of_constant(constants: &[Constant], text: &[u8]) -> Option<usize>
    ensures place { result ≡ position (λ x. bytes_eq x.name.bytes text.now) constants.now }
    ensures within { IfSome result (λ i. i < length constants.now) }
{
    constants.iter().position(|x| x.name.as_bytes() == text)
}

/// The place of the name among those of the parameters.
pub fn place_of_text(names: &[&[u8]], text: &[u8]) -> Option<usize>
    ensures place { result ≡ position (λ x. bytes_eq x.now text.now) names.now }
    ensures within { IfSome result (λ i. i < length names.now) }
{
    names.iter().position(|name| *name == text)
}

/// The set of this name.
pub fn set_named(structure: &Structure, text: &[u8]) -> Option<SetId>
    ensures { result ≡ rule.set_named structure.now text.now }
{
    structure.parts_agree();
    match place_of_set(structure.sets(), text) {
        Some(place) => Some(SetId(place as u32)),
        None => None,
    }
}

/// The constant of this name.
pub fn constant_named(constants: &[Constant], text: &[u8]) -> Option<Value>
    ensures { result ≡ rule.constant_named constants.now text.now }
{
    match place_of_constant(constants, text) {
        Some(place) => Some(constants[place].value),
        None => None,
    }
}

fn has_signal(signals: &[SignalId], signal: SignalId) -> bool
    ensures { result ≡ has_signal signal signals.now }
{
    signals.iter().any(|x| x.0 == signal.0)
}

/// Whether the gate is the set's, and lets the signal out.
fn is_way_out(gate: &Gate, set: SetId, signal: SignalId) -> bool
    ensures { result ≡ is_way_out set signal gate.now }
{
    is_gate_of(gate, set) && has_signal(gate.outward.as_slice(), signal)
}

impl<'a> Setting<'a> {
    /// The signal of this name.
    pub fn signal(&self, text: &[u8]) -> Option<SignalId>
        ensures { result ≡ rule.signal_named self.now text.now }
    {
        self.structure.parts_agree();
        match place_of_signal(self.structure.signals(), text) {
            Some(place) => Some(SignalId(place as u32)),
            None => None,
        }
    }

    /// The set of this name.
    pub fn set_named(&self, text: &[u8]) -> Option<SetId>
        ensures { result ≡ rule.set_named self.now.structure.now text.now }
    {
        set_named(self.structure, text)
    }

    /// The gate of the set of this name.
    pub fn gate(&self, text: &[u8]) -> Option<GateId>
        ensures { result ≡ rule.gate_named self.now text.now }
    {
        self.structure.parts_agree();
        match place_of_gate(self.structure.gates(), self.set, text) {
            Some(place) => Some(GateId(place as u32)),
            None => None,
        }
    }

    /// The channel of this name.
    pub fn channel(&self, text: &[u8]) -> Option<ChannelId>
        ensures { result ≡ rule.channel_named self.now text.now }
    {
        self.structure.parts_agree();
        match place_of_channel(self.structure.channels(), text) {
            Some(place) => Some(ChannelId(place as u32)),
            None => None,
        }
    }

    /// The state of this name.
    pub fn state(&self, text: &[u8]) -> Option<StateId>
        ensures { result ≡ rule.state_named self.now text.now }
    {
        match place_of_state(self.states.as_slice(), text) {
            Some(place) => Some(StateId(place as u32)),
            None => None,
        }
    }

    /// The sorts of the signal's parameters.
    pub fn sorts(&self, signal: SignalId) -> &'a [Sort]
        ensures value { result.now ≡ rule.sorts_of_signal self.now signal }
        ensures few { length result.now ≤ 4 }
    {
        match self.structure.signals().get(signal.0 as usize) {
            Some(x) => x.sorts.as_slice(),
            None => &[],
        }
    }

    /// Whether some gate of the set lets the signal out.
    pub fn is_outward(&self, signal: SignalId) -> bool
        ensures { result ≡ rule.is_outward self.now signal }
    {
        let set = self.set;
        let gates = self.structure.gates();
        gates.iter().any(|x| is_way_out(x, set, signal))
    }

    /// Whether the gate lets the signal out.
    pub fn lets_out(&self, gate: GateId, signal: SignalId) -> bool
        ensures { result ≡ rule.lets_out self.now gate signal }
    {
        match self.structure.gates().get(gate.0 as usize) {
            Some(x) => has_signal(x.outward.as_slice(), signal),
            None => false,
        }
    }

    /// Whether the set lies in the block of the own one.
    pub fn is_beside(&self, set: SetId) -> bool
        ensures { result ≡ rule.is_beside self.now set }
    {
        let Some(own) = self.structure.sets().get(self.set.0 as usize) else {
            return false;
        };
        match self.structure.sets().get(set.0 as usize) {
            Some(other) => own.block.0 == other.block.0,
            None => false,
        }
    }
}

/// The expression that a constant's value is.
fn literal(value: Value) -> Option<Expr>
    ensures { result ≡ rule.literal value }
{
    match value {
        Value::Integer(number) => Some(Expr::Integer(number)),
        Value::Boolean(truth) => Some(Expr::Boolean(truth)),
        Value::Pid(_) => None,
    }
}

/// The variable at the place.
fn variable_at(variables: &[Variable], place: usize) -> Option<Expr>
    ensures { result ≡ rule.variable_at variables.now place }
{
    match variables.get(place) {
        Some(x) => Some(Expr::Variable(place, x.sort)),
        None => None,
    }
}

/// The parameter at the place.
fn parameter_at(sorts: &[Sort], place: usize) -> Option<Expr>
    ensures { result ≡ rule.parameter_at sorts.now place }
{
    match sorts.get(place) {
        Some(sort) => Some(Expr::Parameter(place, *sort)),
        None => None,
    }
}

impl<'a> Meanings<'a> {
    /// What the name of a variable, a parameter or a constant stands for.
    pub fn value(&self, text: &[u8]) -> Option<Expr>
        ensures { result ≡ rule.value_named self.now text.now }
    {
        let variables = self.setting.variables.as_slice();
        match place_of_variable(variables, text) {
            Some(place) => variable_at(variables, place),
            None => self.value_apart(text),
        }
    }

    /// The same, where no variable has the name.
    fn value_apart(&self, text: &[u8]) -> Option<Expr>
        ensures { result ≡ rule.value_apart self.now text.now }
    {
        match place_of_text(self.names, text) {
            Some(place) => parameter_at(self.sorts, place),
            None => match constant_named(self.setting.constants, text) {
                Some(value) => literal(value),
                None => None,
            },
        }
    }
}
