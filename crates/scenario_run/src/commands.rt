//! How a line is done: as a command of the group of forms that knows its first word.
use crate::answer::Answer;
use crate::caller::Caller;
use crate::fault::Failure;
use crate::scenario::Scenario;
use scenario_commands::breadcrumbs::BreadcrumbCommand;
use scenario_commands::captures::CaptureCommand;
use scenario_commands::client_events::ClientEventCommand;
use scenario_commands::clients::ClientCommand;
use scenario_commands::headers::HeaderCommand;
use scenario_commands::hubs::HubCommand;
use scenario_commands::layers::LayerCommand;
use scenario_commands::logs::LogCommand;
use scenario_commands::losses::LossCommand;
use scenario_commands::metrics::MetricCommand;
use scenario_commands::scopes::ScopeCommand;
use scenario_commands::sessions::SessionCommand;
use scenario_commands::settings::Setting;
use scenario_commands::span_edits::SpanEditCommand;
use scenario_commands::spans::SpanCommand;
use scenario_commands::texts::TextCommand;
use scenario_commands::transactions::TransactionCommand;
use scenario_commands::words::Words;

impl<E: Caller> Scenario<E> {
    /// Does what the line of this number asks for. A line that fits no form is a bad command. Where memory is refused
    /// nothing has changed, so that the line may be done once more.
    pub fn perform<'a>(&mut self, number: u64, line: &'a str) -> Result<Answer<'a>, Failure> {
        self.line = number;
        let mut words = Words::new(line);
        let name = words.word();
        self.perform_of_hub(name, words)
    }

    // The groups on hubs and on what they capture, and then the others.
    fn perform_of_hub<'a>(&mut self, name: &str, words: Words<'a>) -> Result<Answer<'a>, Failure> {
        if let Some(command) = HubCommand::read(name, words) {
            return self.perform_on_hub(command);
        }
        if let Some(command) = LayerCommand::read(name, words) {
            return self.perform_on_layers(command);
        }
        if let Some(command) = ScopeCommand::read(name, words) {
            return self.configure(&command);
        }
        if let Some(command) = BreadcrumbCommand::read(name, words) {
            return self.add_breadcrumbs(command);
        }
        if let Some(command) = CaptureCommand::read(name, words) {
            return self.capture(&command);
        }
        if let Some(command) = SessionCommand::read(name, words) {
            return self.perform_on_session(command);
        }
        if let Some(command) = LogCommand::read(name, words) {
            return self.capture_log(&command);
        }
        if let Some(command) = MetricCommand::read(name, words) {
            return self.capture_metric(&command);
        }
        self.perform_of_span(name, words)
    }

    // The groups on transactions and spans, and then those that are left.
    fn perform_of_span<'a>(&mut self, name: &str, words: Words<'a>) -> Result<Answer<'a>, Failure> {
        if let Some(command) = TransactionCommand::read(name, words) {
            return self.start_transaction(&command);
        }
        if let Some(command) = SpanCommand::read(name, words) {
            return self.perform_on_span(&command);
        }
        if let Some(command) = SpanEditCommand::read(name, words) {
            return self.edit_span(&command);
        }
        self.perform_of_client(name, words)
    }

    // The groups on clients alone, and on no part of the engine.
    fn perform_of_client<'a>(
        &mut self,
        name: &str,
        words: Words<'a>,
    ) -> Result<Answer<'a>, Failure> {
        if let Some(setting) = Setting::read(name, words) {
            return Ok(self.set(setting));
        }
        if let Some(command) = ClientCommand::read(name, words) {
            return self.perform_on_client(&command);
        }
        if let Some(command) = ClientEventCommand::read(name, words) {
            return self.hand_event(&command);
        }
        if let Some(command) = LossCommand::read(name, words) {
            return self.perform_on_losses(command);
        }
        if let Some(command) = HeaderCommand::read(name, words) {
            return self.perform_on_headers(&command);
        }
        if let Some(command) = TextCommand::read(name, words) {
            return self.read_text(&command);
        }
        Err(Failure::BadCommand)
    }
}
