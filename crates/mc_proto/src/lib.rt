//! memcached's text protocol (protocol.txt): reads requests from pieces of bytes that may be cut anywhere, and writes the texts
//! of replies. Nothing here runs a command.
#![tactic(auto)]

mod appending;
mod brief;
mod command;
mod directive;
mod dividing;
mod gathering;
mod get;
mod lacking;
mod laws;
mod line;
mod piece;
mod quick;
mod reader;
mod request;
mod said;
mod sink;
mod splitting;
mod state;
mod storage;
mod taking;
mod text;
mod token;
mod uncut;
mod verb;

pub use dividing::split_scripts;
pub use gathering::{LONG, ReplyText, TextPart};
pub use laws::{
    a_line_is_its_tokens, after_is_reading, every_stream_reads, no_spelling_begins_another,
    one_reading, one_splitting, reading_goes_on, scripts_read_alone,
};
pub use reader::Reader;
pub use request::{Keys, Limits, LineFault, Request, Rest, Target};
pub use sink::{Sink, SinkFault, write_reply, write_whole};
pub use text::{
    chunks_text, fault_text, histogram_text, moves_text, push_chunks, push_end, push_fault,
    push_histogram, push_moves, push_reply, push_value_head, push_value_tail, reply_text,
    value_text,
};
