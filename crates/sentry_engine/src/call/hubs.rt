//! The calls on hubs, as values.
ghost use Rattle.sentry_calls.specs.Steps.{hub_step, hub_needs};
ghost use Rattle.sentry_state.specs.Outcomes.{DoesWith};

use crate::call::{Answer, HubCall, replies};
use crate::engine::Engine;
use sentry_base::callbacks::EventCallback;
use sentry_options::Callbacks;
use sentry_plain::Few;

impl<P: EventCallback + Drop, C: Callbacks> Engine<P, C> {
    // Makes a call on a hub, by the method of its name.
    #[tactic(auto, unfolding(sentry_calls::specs::Steps::hub_step))]
    pub(super) fn apply_hub_call(&mut self, call: HubCall<P>) -> Answer<P, C>
        ensures { DoesWith (hub_needs call) self.old self.new result (hub_step P.gives C.meanings call) }
    {
        match call {
            HubCall::NewHub { client, scope } => replies::hub(self.new_boxed_hub(client, scope)),
            HubCall::Configure { hub, edits, now } => replies::done(self.configure(
                hub,
                edits.into_vec(),
                now,
            )),
            HubCall::AddBreadcrumbs { hub, breadcrumbs } => {
                replies::done(self.add_breadcrumbs(hub, Few::from_vec(breadcrumbs.into_vec())))
            }
            HubCall::CaptureEvent { hub, event, fresh } => {
                replies::event(self.capture_boxed_event(hub, event, fresh))
            }
            HubCall::CaptureMessage {
                hub,
                message,
                level,
                fresh,
            } => replies::event(self.capture_text(hub, message, level, fresh)),
            HubCall::CaptureError { hub, links, fresh } => {
                replies::event(self.capture_error(hub, links.as_slice(), fresh))
            }
            HubCall::CaptureLog { hub, log } => replies::done(self.capture_log(
                hub,
                log.into_inner(),
            )),
            HubCall::CaptureMetric { hub, draft, now } => {
                replies::done(self.capture_metric(hub, draft.into_inner(), now))
            }
            HubCall::LastEventId(hub) => replies::last_event(self.last_event_id(hub)),
            HubCall::Client(hub) => replies::hub_client(self.client(hub)),
            HubCall::IsActive(hub) => replies::decision(self.is_active(hub)),
            HubCall::Scope(hub) => replies::scope(self.scope(hub)),
            HubCall::PushScope(hub) => replies::depth(self.push_scope(hub)),
            HubCall::PopScope { hub, depth, now } => replies::done(self.pop_scope_at(
                hub, depth, now,
            )),
            HubCall::NewHubFromTop(hub) => replies::hub(self.new_hub_from_top(hub)),
            HubCall::ReleaseHub { hub, now } => replies::done(self.release_hub(hub, now)),
            HubCall::BindClient { hub, client } => replies::done(self.bind_client(hub, client)),
            HubCall::StartSession { hub, fresh } => replies::done(self.start_session(hub, fresh)),
            HubCall::EndSessionWithStatus { hub, status, now } => {
                replies::done(self.end_session_with_status(hub, status, now))
            }
        }
    }
}
