//! Why behaviours do not fit a structure.
use sdl_signal::SetId;

/// The first fault of behaviours against a structure. First come the sets without a behaviour, then the sets with two.
/// The behaviours follow in the order of their list, each with its faults in the order that they have here. Each names
/// the set; of a behaviour it is the one that the behaviour says, whether the structure has it or not. (This project's
/// own.)
#[derive(Clone, Copy, Debug, PartialEq, Eq)]
pub enum BindFault {
    /// B1: no behaviour is of the set.
    NoBehaviour(SetId),
    /// B2: two behaviours are of the set.
    TwoBehaviours(SetId),
    /// B3: a use has a number that is there under another name or not at all; a number of the behaviour is in no use;
    /// an offer has another number of sets than the structure.
    WrongName(SetId),
    /// B4: an offered signal is in the outward list of no gate of the set.
    UndeclaredOutput(SetId),
    /// B5: a gate that an offered output names is not the set's, or its outward list lacks the signal.
    UndeclaredGate(SetId),
    /// B6: a state has a number past the list of states, also one that saves; a row is for another state or signal than
    /// its offer; the start's offer is for one.
    UnknownState(SetId),
    /// B7: a signal has other sorts than in the structure; an offer has other sorts than the variables; a variable is
    /// a Pid other than Null at first.
    WrongSorts(SetId),
    /// B8: an offered create is of a set of another block.
    CreateElsewhere(SetId),
    /// B9: two rows are for one state and signal; a state saves a signal twice; a state saves one that it has a row for.
    TwoRows(SetId),
    /// B10: memory was refused.
    Memory,
}
