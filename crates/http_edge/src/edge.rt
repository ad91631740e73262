//! The edge: requests on channels, each applied as a whole.
ghost use Rattle.std.specs.Prelude.{◌≡◌, [], IfOk};
ghost use Rattle.http_edge.specs.Table.{turn, is_live_resource_of_edge};
ghost use Rattle.http_edge.specs.Waiting.{turn_of};
ghost use Rattle.http_edge.specs.Edges.{RepresentsRequests, AnswersRequest, TakesTurnOf};

use crate::channels::{Channels, MAX_CHANNELS};
use channel_api::{Resource, Routes, not_found};
use http::StatusCode;
use http_messages::{Reply, Request};
use std::alloc::{AllocError, Global};
use std::hash::RandomState;
use std::marker::Model;

/// Channels over HTTP. By its type an edge stands for some list of requests.
#[derive(Drop)]
pub struct Edge {
    alloc: Global,
    routes: Routes,
    channels: Channels,
}

impl Model for Edge {
    ghost use Rattle.std.specs.Prelude.{List};
    ghost use Rattle.http_edge.specs.Edges.{NamedChannel, RepresentsSome};

    ghost Value = { List NamedChannel };

    ghost view = { λ e. e.channels };

    ghost invariant = { λ e. RepresentsSome e.channels };
}

fn is_live_resource_of_edge(resource: Resource) -> bool
    ensures { result ≡ is_live_resource_of_edge resource }
{
    resource == Resource::Live
}

impl Edge {
    /// An edge without channels: it stands for no request. `hashing`: the keys for each channel's tables of IDs. Fails only if
    /// an allocation fails.
    pub fn new(alloc: Global, hashing: RandomState) -> Result<Edge, AllocError>
        ensures { IfOk result (λ edge. RepresentsRequests edge []) }
    {
        let Ok(routes) = Routes::new(alloc) else {
            return Err(AllocError);
        };
        Ok(Edge {
            alloc,
            routes,
            channels: Channels::new(alloc, hashing),
        })
    }

    /// Applies `request` as a whole, and gives its reply. Whatever requests the edge stands for, the reply is the one
    /// owed after them, and the edge stands for `request` too. After a failed allocation the reply is 503, and
    /// `request` is left out.
    ///
    /// ```text
    /// let mut edge = Edge::new(alloc, hashing)?;
    /// edge.answer(&request)    PUT /channels/one, with a base:    201
    /// edge.answer(&request)    GET /channels/two/live.m3u8:       404
    /// ```
    pub fn answer(&mut self, request: &Request) -> Reply
        ensures { AnswersRequest self.old request.now result self.new }
    {
        match self.answer_request(request) {
            Ok(reply) => reply,
            Err(_) => Reply::bare(StatusCode::SERVICE_UNAVAILABLE),
        }
    }

    /// Whose turn a request of `target` takes: the number of the channel that it is of, below `MAX_CHANNELS`, or
    /// `MAX_CHANNELS` if it is of none that is there. `None` if it reads the playlist that a channel wrote last: then its
    /// method is GET, as `gets` says, its reply is there already, and nothing is changed by it.
    pub fn turn_of(&self, gets: bool, target: &str) -> Option<usize>
        ensures { result ≡ turn_of self.now gets target.now }
    {
        let Some((name, resource)) = self.routes.find(target) else {
            return Some(MAX_CHANNELS);
        };
        if gets && is_live_resource_of_edge(resource) {
            return None;
        }
        Some(self.channels.number(name))
    }

    fn answer_request(&mut self, request: &Request) -> Result<Reply, AllocError>
        ensures { TakesTurnOf (λ table. turn table request.now) self.old result self.new }
    {
        let Some((name, resource)) = self.routes.find(request.target.as_str()) else {
            return not_found(self.alloc);
        };
        self.channels.on_resource(name, resource, request)
    }
}
