//! The texts of the faults of the checker and of binding.
use crate::names::{agent_name, channel_name, end_agent_name, gate_name, set_name, signal_name};
use sdl_app_command::errors::{without_memory, write_error};
use sdl_signal::{ChannelId, GateId, SignalId};
use sdl_structure_parts::{CheckFault, Direction, Side, Structure};
use sdl_transition::BindFault;
use std::io::Write;

/// Writes the fault of the structure as one line.
pub(crate) fn write_check_fault<E: Write>(
    errors: &mut E,
    structure: &Structure,
    fault: CheckFault,
) {
    match fault {
        CheckFault::BadEnds(channel) => {
            write_channel_fault(errors, structure, "C1 BadEnds", channel)
        }
        CheckFault::EmptyChannel(channel) => {
            write_channel_fault(errors, structure, "C2 EmptyChannel", channel)
        }
        CheckFault::NotInGate(channel, direction, signal, gate) => {
            write_not_in_gate(errors, structure, (channel, direction, signal, gate))
        }
        CheckFault::Unjoined(gate, side) => write_unjoined(errors, structure, gate, side),
        CheckFault::LeadsNowhere(channel, direction, signal) => {
            write_leads_nowhere(errors, structure, channel, direction, signal)
        }
        CheckFault::InitialOverMax(set) => {
            let set = set_name(structure, set);
            write_error(errors, format_args!("C6 InitialOverMax set {set}"))
        }
    }
}

/// Writes a fault of a channel alone.
fn write_channel_fault<E: Write>(
    errors: &mut E,
    structure: &Structure,
    text: &str,
    channel: ChannelId,
) {
    let channel = channel_name(structure, channel);
    write_error(errors, format_args!("{text} channel {channel}"));
}

/// Writes that a side of a gate is joined to nothing.
fn write_unjoined<E: Write>(errors: &mut E, structure: &Structure, gate: GateId, side: Side) {
    let agent = agent_name(structure, gate);
    let gate = gate_name(structure, gate);
    let side = side_text(side);
    write_error(
        errors,
        format_args!("C4 Unjoined gate {agent}.{gate} {side}"),
    );
}

/// Writes that a signal of a channel's path leads nowhere.
fn write_leads_nowhere<E: Write>(
    errors: &mut E,
    structure: &Structure,
    channel: ChannelId,
    direction: Direction,
    signal: SignalId,
) {
    let channel = channel_name(structure, channel);
    let direction = direction_text(direction);
    let signal = signal_name(structure, signal);
    write_error(
        errors,
        format_args!("C5 LeadsNowhere channel {channel} {direction} {signal}"),
    );
}

/// Writes that a gate does not list a signal of a channel's path.
fn write_not_in_gate<E: Write>(
    errors: &mut E,
    structure: &Structure,
    (channel, direction, signal, gate): (ChannelId, Direction, SignalId, GateId),
) {
    write_error(
        errors,
        format_args!(
            "C3 NotInGate channel {} {} {} {}.{}",
            channel_name(structure, channel),
            direction_text(direction),
            signal_name(structure, signal),
            end_agent_name(structure, channel, gate),
            gate_name(structure, gate)
        ),
    );
}

fn direction_text(direction: Direction) -> &'static str {
    match direction {
        Direction::Forth => "forth",
        Direction::Back => "back",
    }
}

fn side_text(side: Side) -> &'static str {
    match side {
        Side::Outer => "outside",
        Side::Inner => "inside",
    }
}

/// Writes why behaviours could not be bound, as one line. A line that is not taken is dropped.
pub fn write_bind_fault<E: Write>(errors: &mut E, fault: BindFault) {
    let (text, set) = match fault {
        BindFault::NoBehaviour(set) => ("B1 NoBehaviour", set),
        BindFault::TwoBehaviours(set) => ("B2 TwoBehaviours", set),
        BindFault::WrongName(set) => ("B3 WrongName", set),
        BindFault::UndeclaredOutput(set) => ("B4 UndeclaredOutput", set),
        BindFault::UndeclaredGate(set) => ("B5 UndeclaredGate", set),
        BindFault::UnknownState(set) => ("B6 UnknownState", set),
        BindFault::WrongSorts(set) => ("B7 WrongSorts", set),
        BindFault::CreateElsewhere(set) => ("B8 CreateElsewhere", set),
        BindFault::TwoRows(set) => ("B9 TwoRows", set),
        BindFault::Memory => return without_memory(errors),
    };
    write_error(errors, format_args!("{text} set {}", set.0));
}
