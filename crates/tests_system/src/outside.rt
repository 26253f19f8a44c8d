//! Tests of what is in no clause of the outside in memory, and of a pipe between two threads.
//!
//! What is expected comes from what the forms in memory, and the pipe, say of their calls.
mod fixtures;
mod forms;
mod pipes;
