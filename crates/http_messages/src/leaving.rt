//! A reply that its client takes in parts.
ghost use Rattle.std.specs.Prelude.{◌≡◌, ◌<◌, ◌≤◌, ◌+◌, ◌++◌, drop, length};
ghost use Rattle.http_messages.specs.Replies.{text_sent};

use crate::message::{Content, Reply};
use crate::reply_head::reply_head_of;
use crate::sending::reply_body_sent;
use arrayvec::ArrayString;
use std::marker::Model;

// The bytes of a reply's head at the most.
const HEAD_MEMORY: usize = 256;

/// What a client hasn't taken yet of a reply. The body is not copied: it stays where the reply has it.
#[derive(Drop)]
pub struct Leaving {
    head: ArrayString<HEAD_MEMORY>,
    reply: Reply,
    with_body: bool,
    taken: usize,
}

impl Model for Leaving {
    ghost use Rattle.std.specs.Prelude.{ℕ, ◌≤◌, ◌++◌, List, drop, length};
    ghost use Rattle.http_messages.specs.Replies.{reply_body_sent};

    ghost Value = { List ℕ };

    ghost view = { λ l. drop l.taken (l.head.bytes ++ reply_body_sent l.with_body l.reply) };

    ghost invariant = { λ l. l.taken ≤ length (l.head.bytes ++ reply_body_sent l.with_body l.reply) };
}

impl Leaving {
    /// All of `reply`, with its body if `with_body`. Takes no memory.
    pub fn new(reply: Reply, with_body: bool) -> Leaving
        ensures { result ≡ text_sent with_body reply }
    {
        let head = reply_head_of(&reply);
        Leaving {
            head,
            reply,
            with_body,
            taken: 0,
        }
    }

    /// What is left, in two parts.
    pub fn parts(&self) -> (&[u8], &[u8])
        ensures { result.0.now ++ result.1.now ≡ self.now }
    {
        let head = self.head.as_str().as_bytes();
        let body = reply_body_sent(&self.reply, self.with_body);
        reply_parts_from(head, body, self.taken)
    }

    /// How many bytes are left.
    pub fn len(&self) -> usize
        ensures { result ≡ length self.now }
    {
        let (head, body) = self.parts();
        head.len() + body.len()
    }

    /// The bytes of memory that the reply keeps for its client: its head, and of its text an equal share for each owner of the text.
    /// So replies with one text keep together no more than the text has, and their heads.
    pub fn memory(&self) -> usize
        ensures { 0 < result }
    {
        match &self.reply.content {
            Some(content) => HEAD_MEMORY.saturating_add(text_share(content)),
            None => HEAD_MEMORY,
        }
    }

    /// The client took `count` bytes more.
    pub fn advance(&mut self, count: usize)
        requires { count ≤ length self.old }
        ensures { self.new ≡ drop count self.old }
    {
        let len = self.head.len() + reply_body_sent(&self.reply, self.with_body).len();
        self.taken = place_after_reply_bytes(self.taken, count, len);
    }
}

// The bytes of a text that one of its owners keeps, if all keep alike.
fn text_share(content: &Content) -> usize {
    content.text.as_str().len() / content.text.owners()
}

// Two texts from a place of both on.
fn reply_parts_from<'a>(head: &'a [u8], body: &'a [u8], from: usize) -> (&'a [u8], &'a [u8])
    requires { from ≤ length (head.now ++ body.now) }
    ensures { result.0.now ++ result.1.now ≡ drop from (head.now ++ body.now) }
{
    if from <= head.len() {
        return (&head[from..], body);
    }
    (&[], &body[from - head.len()..])
}

// A place that is so much further on, up to the end.
fn place_after_reply_bytes(place: usize, count: usize, len: usize) -> usize
    requires { place + count ≤ len }
    ensures { result ≡ place + count }
{
    place + count
}
