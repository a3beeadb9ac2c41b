//! The texts of the faults of a listing.
use sdl_app_command::errors::{without_memory, write_error};
use sdl_app_file_commands::faults::write_bind_fault;
use sdl_listing_binding::ListingFault;
use std::io::Write;

/// Writes why a listing does not run, as one line. A line that is not taken is dropped.
pub fn write_listing_fault<E: Write>(errors: &mut E, fault: ListingFault) {
    match fault {
        ListingFault::ManyTransitions => write_error(errors, "ManyTransitions"),
        ListingFault::NoTrigger(number) => {
            write_error(errors, format_args!("NoTrigger transition {number}"))
        }
        ListingFault::Bind(fault) => write_bind_fault(errors, fault),
        ListingFault::Memory => without_memory(errors),
    }
}
