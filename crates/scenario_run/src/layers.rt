//! What is done with the layers of hubs.
use crate::answer::Answer;
use crate::caller::{CallReply, Caller};
use crate::fault::Failure;
use crate::scenario::{Scenario, client_key, hub_key};
use scenario_commands::layers::LayerCommand;
use sentry_engine::call::{Call, HubCall};

impl<E: Caller> Scenario<E> {
    /// Does a command on the layers of a hub.
    pub fn perform_on_layers<'a>(&mut self, command: LayerCommand) -> Result<Answer<'a>, Failure> {
        match command {
            LayerCommand::Push(hub) => self.push_scope(hub),
            LayerCommand::Pop { hub, depth } => self.pop_scope(hub, depth),
            LayerCommand::Top(hub) => self.call_hub(HubCall::NewHubFromTop(hub_key(hub))),
            LayerCommand::Release(hub) => {
                let now = self.moment();
                let hub = hub_key(hub);
                self.call_hub(HubCall::ReleaseHub { hub, now })
            }
            LayerCommand::Bind { hub, client } => {
                let client = client.map(client_key);
                let hub = hub_key(hub);
                self.call_hub(HubCall::BindClient { hub, client })
            }
        }
    }

    // The hub gets its entry before the call, so that what is out of memory has changed nothing.
    fn push_scope<'a>(&mut self, hub: u64) -> Result<Answer<'a>, Failure> {
        if self.depths.get(hub).is_none() {
            self.depths.insert(hub, 0)?;
        }
        let out = self
            .caller
            .apply(Call::Hub(HubCall::PushScope(hub_key(hub))))?;
        let CallReply::Depth(depth) = &out.reply else {
            return Err(Failure::OtherReply);
        };
        self.set_depth(hub, *depth);
        Ok(Answer::of_sent(out))
    }

    fn pop_scope<'a>(&mut self, hub: u64, depth: Option<u64>) -> Result<Answer<'a>, Failure> {
        let depth = self.depth_to_pop(hub, depth);
        let now = self.moment();
        let answer = self.call_hub(HubCall::PopScope {
            hub: hub_key(hub),
            depth,
            now,
        })?;
        self.set_depth(hub, depth.saturating_sub(1));
        Ok(answer)
    }
}

impl<E> Scenario<E> {
    // Notes the depth of a hub that has an entry.
    fn set_depth(&mut self, hub: u64, depth: usize) {
        let Some(place) = self.depths.get_mut(hub) else {
            return;
        };
        *place = depth;
    }

    // The depth of the layer that is to be popped: the one that is given, or that of the top one.
    fn depth_to_pop(&self, hub: u64, depth: Option<u64>) -> usize {
        match depth {
            Some(depth) => usize::try_from(depth).unwrap_or(usize::MAX),
            None => self.depths.get(hub).copied().unwrap_or(0),
        }
    }
}
