//! The channels by name, and what a request on one of them does.
ghost use Rattle.std.specs.Prelude.{◌≡◌, []};
ghost use Rattle.live_channel.specs.Channel.{refreshed, decided, Represents as IsChannelOf};
ghost use Rattle.channel_api.specs.ChannelBody.{body_said};
ghost use Rattle.http_edge.specs.Replies.{refresh_owed, decisions_owed, live_owed, why_owed};
ghost use Rattle.http_edge.specs.Table.{turn_at, made, added, removed, read_turn, given_at};
ghost use Rattle.http_edge.specs.Edges.{TakesTurnOf};
ghost use Rattle.http_edge.specs.Inner.Events.{event_at};
ghost use Rattle.http_edge.specs.Waiting.{channel_number};

use crate::events::{decide_on_edge, live_playlist_of_edge, refresh_on_edge};
use crate::replies::{edge_reply_of_channel_fault, edge_why_reply};
use channel_api::{
    Naming, Resource, body_fault_reply, not_allowed, not_found, put_named, read_wanted,
    remove_named, reply_line,
};
use http::StatusCode;
use http_messages::{Allow, Reply, Request};
use indexmap::IndexMap;
use live_channel::Channel;
use std::alloc::{AllocError, Global};
use std::hash::RandomState;
use std::marker::Model;

/// The most channels.
pub const MAX_CHANNELS: usize = 64;

/// The channels by name, in the order in which they were made.
#[derive(Drop)]
pub struct Channels {
    alloc: Global,
    // The keys for each channel's tables of IDs.
    hashing: RandomState,
    by_name: IndexMap<String, Channel>,
}

impl Model for Channels {
    ghost use Rattle.std.specs.Prelude.{List, map};
    ghost use Rattle.http_edge.specs.Edges.{NamedChannel, named_channel};

    ghost Value = { List NamedChannel };

    ghost view = { λ c. map named_channel c.by_name.entries };
}

impl Channels {
    /// No channels. `hashing`: the keys for each channel's tables of IDs.
    pub fn new(alloc: Global, hashing: RandomState) -> Channels
        ensures { result ≡ [] }
    {
        Channels {
            alloc,
            hashing,
            by_name: IndexMap::new(alloc),
        }
    }

    /// What a `request` on the `resource` of the channel `name` does, and the reply to it. Fails only if an
    /// allocation fails; all channels are then as they were.
    pub fn on_resource(
        &mut self,
        name: &str,
        resource: Resource,
        request: &Request,
    ) -> Result<Reply, AllocError>
        ensures { TakesTurnOf (λ table. turn_at table request.now name.now resource)
            self.old result self.new }
    {
        let body = request.body.as_slice();
        match (resource, request.method.as_str()) {
            (Resource::Channel, "PUT") => self.make(name, body),
            (Resource::Channel, "DELETE") => self.remove(name),
            (Resource::Channel, _) => not_allowed(self.alloc, Allow::PutDelete),
            (Resource::Origin, "PUT") => self.refresh(name, body),
            (Resource::Decisions, "PUT") => self.decide(name, body),
            (Resource::Origin | Resource::Decisions, _) => not_allowed(self.alloc, Allow::Put),
            (Resource::Live, "GET") => self.live(name),
            (Resource::Why, "GET") => self.why(name),
            (Resource::Live | Resource::Why, _) => not_allowed(self.alloc, Allow::Get),
        }
    }

    /// The number of the channel `name`: from 0, in the order in which they were made. `MAX_CHANNELS` if there is none.
    pub fn number(&self, name: &str) -> usize
        ensures { result ≡ channel_number self.now name.now }
    {
        match self.by_name.get_index_of(name) {
            Some(number) => number.min(MAX_CHANNELS),
            None => MAX_CHANNELS,
        }
    }

    fn make(&mut self, name: &str, body: &[u8]) -> Result<Reply, AllocError>
        ensures { TakesTurnOf (λ table. made table name.now (body_said body.now)) self.old result
            self.new }
    {
        let alloc = self.alloc;
        let wanted = match read_wanted(alloc, body) {
            Ok(wanted) => wanted,
            Err(fault) => return body_fault_reply(alloc, fault),
        };
        match Channel::new(alloc, self.hashing, wanted.base.as_str(), wanted.tolerance) {
            Ok(channel) => self.add(name, channel),
            Err(fault) => edge_reply_of_channel_fault(alloc, fault),
        }
    }

    // Takes in `channel`, which was given nothing, under `name`, if none has it and there is room: 503 for a 65th
    // (RFC 9110, section 15.6.4).
    fn add(&mut self, name: &str, channel: Channel) -> Result<Reply, AllocError>
        requires { IsChannelOf channel [] }
        ensures { TakesTurnOf (λ table. added table name.now channel.base channel.tolerance)
            self.old result self.new }
    {
        let alloc = self.alloc;
        match put_named(alloc, &mut self.by_name, MAX_CHANNELS, name, channel)? {
            Naming::Done => Ok(Reply::bare(StatusCode::CREATED)),
            Naming::Taken => reply_line(alloc, StatusCode::CONFLICT, "channel exists"),
            Naming::Full => Ok(Reply::bare(StatusCode::SERVICE_UNAVAILABLE)),
        }
    }

    fn remove(&mut self, name: &str) -> Result<Reply, AllocError>
        ensures { TakesTurnOf (λ table. removed table name.now (given_at name.now table))
            self.old result self.new }
    {
        if !remove_named(&mut self.by_name, name) {
            return not_found(self.alloc);
        }
        Ok(Reply::bare(StatusCode::NO_CONTENT))
    }

    fn refresh(&mut self, name: &str, body: &[u8]) -> Result<Reply, AllocError>
        ensures { TakesTurnOf (event_at name.now (refreshed body.now) (refresh_owed body.now))
            self.old result self.new }
    {
        let alloc = self.alloc;
        let Some(channel) = self.by_name.get_mut(name) else {
            return not_found(alloc);
        };
        refresh_on_edge(alloc, channel, body)
    }

    fn decide(&mut self, name: &str, body: &[u8]) -> Result<Reply, AllocError>
        ensures { TakesTurnOf (event_at name.now (decided body.now) (decisions_owed body.now))
            self.old result self.new }
    {
        let alloc = self.alloc;
        let Some(channel) = self.by_name.get_mut(name) else {
            return not_found(alloc);
        };
        decide_on_edge(alloc, channel, body)
    }

    fn live(&self, name: &str) -> Result<Reply, AllocError>
        ensures { TakesTurnOf (λ table. read_turn table live_owed (given_at name.now table))
            self.now result self.now }
    {
        let Some(channel) = self.by_name.get(name) else {
            return not_found(self.alloc);
        };
        live_playlist_of_edge(self.alloc, channel)
    }

    fn why(&self, name: &str) -> Result<Reply, AllocError>
        ensures { TakesTurnOf (λ table. read_turn table why_owed (given_at name.now table))
            self.now result self.now }
    {
        let Some(channel) = self.by_name.get(name) else {
            return not_found(self.alloc);
        };
        edge_why_reply(self.alloc, channel)
    }
}
