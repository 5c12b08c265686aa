//! What is done with clients, and with sampling.
use crate::answer::{Answer, Reply};
use crate::callbacks::{Callbacks, Handler};
use crate::caller::{CallReply, Caller};
use crate::fault::Failure;
use crate::options::ClientPlan;
use crate::scenario::{Scenario, client_key, client_label};
use scenario_commands::clients::ClientCommand;
use scenario_commands::options::OptionWords;
use sentry_base::protocol::{Draw, SampleRate};
use sentry_engine::call::{Call, ClientCall};
use sentry_plain::Boxed;

impl<E: Caller> Scenario<E> {
    /// Does a command on clients or sampling.
    pub fn perform_on_client<'a>(
        &mut self,
        command: &ClientCommand<'_>,
    ) -> Result<Answer<'a>, Failure> {
        match command {
            ClientCommand::Add { release, options } => self.add_client(*release, *options),
            ClientCommand::Options(client) => {
                self.ask_client(*client, ClientCall::Options(client_key(*client)))
            }
            ClientCommand::Dsn(client) => {
                self.ask_client(*client, ClientCall::Dsn(client_key(*client)))
            }
            ClientCommand::IsEnabled(client) => {
                self.ask_client(*client, ClientCall::IsEnabled(client_key(*client)))
            }
            ClientCommand::Flush(client) => self.call_client(ClientCall::Flush(client_key(
                *client,
            ))),
            ClientCommand::Tick(client) => self.tick(*client),
            ClientCommand::Close(client) => self.call_client(ClientCall::Close(client_key(
                *client,
            ))),
            ClientCommand::Clone(client) => self.clone_client(*client),
            ClientCommand::Drop(client) => {
                self.call_client(ClientCall::DropClient(client_key(*client)))
            }
            ClientCommand::Sample { millionths, draw } => self.sample(*millionths, *draw),
        }
    }

    // Makes a call that adds a client.
    fn add<'a>(&mut self, call: ClientCall<Handler, Callbacks>) -> Result<Answer<'a>, Failure> {
        let out = self.caller.apply(Call::Client(call))?;
        let CallReply::Client(key) = &out.reply else {
            return Err(Failure::OtherReply);
        };
        self.clients = key.number.saturating_add(1);
        Ok(Answer::of_sent(out))
    }

    // A client has a label of its own.
    fn add_client<'a>(
        &mut self,
        release: Option<&str>,
        options: OptionWords<'_>,
    ) -> Result<Answer<'a>, Failure> {
        let plan = ClientPlan::new(self.alloc, release)?;
        let ClientPlan { options, transport } = plan.set_all(self.alloc, options)?;
        let options = Boxed::new(self.alloc, options)?;
        let label = client_label(self.clients);
        let now = self.moment();
        self.add(ClientCall::AddClient {
            options,
            transport,
            label,
            now,
        })
    }

    fn tick<'a>(&mut self, client: u64) -> Result<Answer<'a>, Failure> {
        let now = self.moment();
        let client = client_key(client);
        self.call_client(ClientCall::Tick { client, now })
    }

    // The original is noted before the call, so that what is out of memory has changed nothing that is seen; a client
    // that isn't held was refused before that.
    fn clone_client<'a>(&mut self, client: u64) -> Result<Answer<'a>, Failure> {
        self.decide(Call::Client(ClientCall::IsEnabled(client_key(client))))?;
        self.originals.note(self.clients, client)?;
        let now = self.moment();
        let client = client_key(client);
        self.add(ClientCall::CloneClient { client, now })
    }

    fn sample<'a>(&mut self, millionths: u32, draw: Draw) -> Result<Answer<'a>, Failure> {
        let rate = SampleRate::new(millionths)?;
        let call = Call::Client(ClientCall::SampleShouldSend { rate, draw });
        let decision = self.decide(call)?;
        Ok(Answer::new(self.alloc, Reply::Sample(decision)))
    }
}
