//! A queue with two feeders, its ends in threads of their own.
mod ends;
mod three_threads;
