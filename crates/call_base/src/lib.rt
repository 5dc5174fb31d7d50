//! What every call of a session says, and how the calls of a mutator follow one another. This crate has no code.
//!
//! `specs/Called.antt` says what a call leaves of its caller's view: the history that it has seen grew by a part whose own events
//! are just the call's, in order. `Made` adds that they are the shape of the call with its reply, and that the variables and the
//! ticket are those that these events leave; `MadeAll` says it of calls one after another. `proofs/CallsInOrder.antt` puts steps
//! together to calls, and calls to rows of them; `OneEvent.antt` has calls of no event and of one, and `HeldVariables.antt` what
//! variables hold, in the model as in the view.
#![tactic(auto)]
