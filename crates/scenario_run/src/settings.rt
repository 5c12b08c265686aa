//! How it is set what later lines are handed.
use crate::answer::{Answer, Reply};
use crate::scenario::Scenario;
use scenario_commands::settings::Setting;

impl<E> Scenario<E> {
    /// Sets what later lines are handed.
    pub fn set<'a>(&mut self, setting: Setting) -> Answer<'a> {
        match setting {
            Setting::Moment(now) => self.now = now,
            Setting::Draw(draw) => self.draw = draw,
        }
        Answer::new(self.alloc, Reply::Nothing)
    }
}
