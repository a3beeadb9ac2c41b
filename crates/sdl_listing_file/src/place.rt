//! The places of an agents file: the kinds of its tables, their keys, and where a table lies.
ghost use Rattle.std.specs.Prelude.{◌≡◌};
ghost use Rattle.sdl_listing_file.specs.Keys.{part_text, key_text, keys_of};

use std::fmt;

/// A kind of table of the file.
#[derive(Clone, Copy, Debug)]
pub enum AgentsPart {
    /// The top table.
    Agents,
    Behaviour,
    /// A group of states.
    State,
}

/// A key of a table.
#[derive(Clone, Copy, Debug)]
pub enum AgentsKey {
    Version,
    System,
    Constants,
    Behaviour,
    Sets,
    Variables,
    Start,
    State,
    Names,
    Save,
    Input,
    /// A key that the table may not have.
    Other,
}

/// A key of one table of the file. `behaviour` is the position of the behaviour, and `state` that of the group of states in it. A
/// number that means nothing for the part is 0.
#[derive(Clone, Copy, Debug)]
pub struct AgentsPlace {
    pub part: AgentsPart,
    pub behaviour: u32,
    pub state: u32,
    pub key: AgentsKey,
}

impl AgentsPart {
    /// The part as the text of a fault names it.
    pub fn text(self) -> &'static str
        ensures { result.now ≡ part_text self }
    {
        match self {
            AgentsPart::Agents => "agents",
            AgentsPart::Behaviour => "behaviour",
            AgentsPart::State => "state",
        }
    }

    /// The keys that a table of this part may have, in the order of the walk.
    pub fn keys(self) -> &'static [AgentsKey]
        ensures { result.now ≡ keys_of self }
    {
        match self {
            AgentsPart::Agents => &[
                AgentsKey::Version,
                AgentsKey::System,
                AgentsKey::Constants,
                AgentsKey::Behaviour,
            ],
            AgentsPart::Behaviour => &[
                AgentsKey::Sets,
                AgentsKey::Variables,
                AgentsKey::Start,
                AgentsKey::State,
            ],
            AgentsPart::State => &[AgentsKey::Names, AgentsKey::Save, AgentsKey::Input],
        }
    }
}

impl AgentsKey {
    /// The key as the file writes it; a key that a table may not have is `other`.
    pub fn text(self) -> &'static str
        ensures { result.now ≡ key_text self }
    {
        match self {
            AgentsKey::Version => "version",
            AgentsKey::System => "system",
            AgentsKey::Constants => "constants",
            AgentsKey::Behaviour => "behaviour",
            AgentsKey::Sets => "sets",
            AgentsKey::Variables => "variables",
            AgentsKey::Start => "start",
            AgentsKey::State => "state",
            AgentsKey::Names => "names",
            AgentsKey::Save => "save",
            AgentsKey::Input => "input",
            AgentsKey::Other => "other",
        }
    }
}

/// The part, the two numbers, a 0 and the key, as in `state 0 1 0 names`.
impl fmt::Display for AgentsPlace {
    fn fmt<W: fmt::Write>(&self, f: &mut fmt::Formatter<W>) -> fmt::Result {
        write!(
            f,
            "{} {} {} 0 {}",
            self.part.text(),
            self.behaviour,
            self.state,
            self.key.text()
        )
    }
}
