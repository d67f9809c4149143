//! What a C program asks, and what it is answered: operations, requests and responses, and the bytes of both.
//!
//! An [`Operation`] is named by a number. What its request asks for is in `specs/Requests`. A [`Response`] is what a
//! call answers; [`status_of`] is what the call returns then, and [`add_response_bytes`] adds the bytes of its reply,
//! by their kind in front (`specs/Replies`). An answer or a refusal has a line in the report too ([`add_line_bytes`]).
//! A call that makes several events is answered by several responses ([`Outcome`]).
//!
//! The bytes. A number is eight bytes, the lowest first, and a negative one stands in two's complement. A text is the
//! number of its bytes, and these. A value is one byte for its kind, and then what it holds: 0 for NULL, 1 and a
//! number, 2 and a text; 5 and the text of its decimal digits for a number that a SELECT lists and that passes 64 bits.
//! Lists stand behind the number of their items. A root is a value, or the byte 3, where an assertion is false as a
//! whole; 4 stands where a refusal names neither root nor key.
//!
//! [`Bytes`] grows by one field after the other, as `specs/Spelling` and `specs/Refusals` have them. [`read_number`],
//! [`read_text`] and [`read_values`] take fields from the front of any bytes. What they answer is a function of the
//! bytes alone, or want of memory (`specs/Reading`): so no bytes make them fail otherwise.
#![tactic(auto)]

mod columns;
mod faults;
mod laws;
mod lines;
mod names;
mod operations;
mod parts;
mod reading;
mod replies;
mod requests;
mod responses;
mod writing;

pub use faults::FieldFault;
pub use laws::what_is_spelled_is_read;
pub use names::{is_name, read_name};
pub use operations::{Operation, operation_of};
pub use reading::{read_number, read_text, read_values};
pub use replies::{add_count_of_replies, add_line_bytes, add_response_bytes};
pub use requests::{
    RunRequest, Step, StepsRequest, read_checkpoint, read_only_number, read_run, read_steps,
};
pub use responses::{
    Misuse, Outcome, Response, Source, Status, Unrestored, is_done, status_number, status_of,
    status_of_outcome, status_of_waiting,
};
pub use writing::Bytes;
