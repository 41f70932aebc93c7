use ksi_aggtree::Item;
use ksi_schedule::Actor;
use ksi_signature::Above;
use ksi_synod::SynodMessage;

/// What is sent.
#[derive(Drop)]
pub enum Content {
    /// A message of the vote on a second.
    Synod(SynodMessage),
    /// The item that the tree of an aggregator's round is submitted as.
    Submission(Item),
    /// The path above the addressee's item.
    Response(Above),
}

/// A message.
#[derive(Drop)]
pub struct Message {
    pub sender: Actor,
    pub addressee: Actor,
    /// The second that it is about.
    pub second: u64,
    pub content: Content,
}

/// A message whose content is lent.
#[derive(Clone, Copy)]
pub struct LentMessage<'a> {
    pub sender: Actor,
    pub addressee: Actor,
    /// The second that it is about.
    pub second: u64,
    pub content: &'a Content,
}
