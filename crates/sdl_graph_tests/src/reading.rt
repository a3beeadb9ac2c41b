//! What a step reads of its frame.
use super::sample::sample_frame;
use sdl_graph::{
    boolean_parameter, boolean_variable, integer_parameter, integer_variable, pid_parameter,
    pid_variable,
};
use sdl_signal::Pid;

#[test]
fn parameters_and_variables_are_read(rt: HostRuntime) {
    let frame = sample_frame();
    let integers = (integer_parameter(&frame, 0), integer_parameter(&frame, 2));
    assert!(rt; integers == (Some(7), None));
    assert!(rt; boolean_parameter(&frame, 1) == Some(true));
    assert!(rt; pid_parameter(&frame, 1) == None);
    let pids = (pid_variable(&frame, 0), pid_variable(&frame, 2));
    assert!(rt; pids == (Some(Pid::Env), None));
    assert!(rt; integer_variable(&frame, 1) == Some(5));
    assert!(rt; boolean_variable(&frame, 1) == None);
}
