//! The workers of a server: the mutator, the log writer and the checkpointer.
//!
//! The mutator runs batches on the front of a pair of seats. It pushes their ticks with their
//! answers, and the switches of the rounds that it opens, on a channel under a rule. The log writer
//! pops them, writes the log, and answers each batch once its tick is durable. The checkpointer
//! writes the image of each round from the back, while play continues. No lock is held around the
//! world. The workers meet once they have ended.
#![tactic(auto)]

mod ask_channel;
mod ask_rule;
mod asker;
mod batch_run;
mod checkpointer;
mod cut;
mod gate;
mod item;
mod item_channel;
mod item_rule;
mod log_writer;
mod meeting;
mod mutator;
mod post;
mod reply_slot;
mod spins;

pub use ask_channel::{AskChannel, AskReceiveEnd, AskReceiver, AskSendEnd};
pub use ask_rule::{AskView, InTurn};
pub use asker::Asker;
pub use batch_run::play;
pub use checkpointer::{Checkpointer, ImageWriter};
pub use cut::Cut;
pub use gate::{Gate, Open, Pass, Place};
pub use item::{Ended, Item, View};
pub use item_channel::{ItemReceiver, ItemSender, ReceiveEnd, SendEnd, compare, open};
pub use item_rule::InOrder;
pub use log_writer::{Log, LogWriter};
pub use meeting::meet_workers;
pub use mutator::Mutator;
pub use post::{Ask, Fault, Post, Reply, SessionBatch, Unplayed, Waiting};
pub use reply_slot::{AwaitedReply, PlayedSender, Refused, ReplySender, ReplySlot};
pub use spins::{Counted, Spins};
