//! 9P2000: its messages as values and what their bytes are; the codec, by which a frame of bytes and a message are
//! read and written as one relation says, and a frame that is no message is refused at the place of its first
//! fault; and the frames of a stream that comes in pieces, each handed out once, in order, however the stream was
//! cut: they are read into a block, and shown there without a copy, one by one or many at once.
#![tactic(auto)]

mod batch;
mod block;
mod block_framer;
mod codec_laws;
mod decode_replies;
mod decode_requests;
mod encode_replies;
mod encode_requests;
mod fault;
mod frame_laws;
mod framer;
mod front;
mod head;
mod message;
mod qid;

pub use batch::{Batch, Behind};
pub use block_framer::{BlockFramer, Peek};
pub use codec_laws::{
    a_frame_has_one_direction, replies_are_read_as_they_are_spelled,
    requests_are_read_as_they_are_spelled,
};
pub use decode_replies::decode_r;
pub use decode_requests::decode_t;
pub use encode_replies::{
    encode_r, put_attach, put_auth, put_clunk, put_create, put_error, put_flush, put_open,
    put_read, put_remove, put_stat, put_version, put_walk, put_write, put_wstat,
};
pub use encode_requests::encode_t;
pub use fault::DecodeFault;
pub use frame_laws::{
    a_batch_is_the_next_frames, frames_are_all_of_the_front, frames_do_not_depend_on_pieces,
};
pub use framer::{Framer, Next};
pub use message::{RBody, RMsg, TBody, TMsg};
pub use qid::{Qid, QidList};
