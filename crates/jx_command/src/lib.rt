//! Reads arguments: which command they are, or why they are not one.
#![tactic(auto)]

mod arg_fault;
mod arg_row;
mod arguments;
mod called;
mod command_rows;
mod each_arguments;
mod grammar;
mod help;
mod inputs;
mod lines_arguments;
mod live_arguments;
mod option_rows;
mod options;
mod order;
mod parts_arguments;
mod request;
mod save_arguments;
mod split_arguments;
mod values_arguments;
mod worker_count;

pub use arg_fault::ArgFault;
pub use arguments::command_of;
pub use inputs::{Input, Inputs, input_of, inputs_of, named_inputs_of, reads_standard_twice};
pub use order::{
    ByLine, EachForm, EachOrder, LinesOrder, LiveOrder, Order, PartsOrder, PartsStep, PassOrder,
    SaveOrder, SplitOrder, TableForm, TableOrder, ValuesOrder,
};
pub use request::{Color, Request, ShowProgress, TellAccepted, Told};
