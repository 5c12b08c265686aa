//! How transactions and spans are held, found and finished.
ghost use Rattle.std.specs.Prelude.{◌≡◌, ◌<◌, ◌-◌, ◌^◌, IfOk, OnOk, OnErr, Some, None, true, is_some, [], option_copied};
ghost use Rattle.sentry_plain.specs.Tables.{value_at, without};
ghost use Rattle.sentry_span_table.specs.SpanLists.{TransactionHistory, left_to_send, stored_transaction, fate_of, with_span_finished};
ghost use Rattle.sentry_span_table.specs.SpanTables.{is_held, span_in, transaction_in};
ghost use Rattle.sentry_span_table.specs.declared.table.records.SpanFate.TheVariants.{Kept};
ghost use Rattle.sentry_span_table.specs.declared.table.records.SpanRecord.{SpanRecord};
ghost use Rattle.sentry_span_table.specs.declared.table.records.TransactionRecord.{TransactionRecord};
ghost use Rattle.sentry_state.specs.Outcomes.{stored_transaction_at, span_at};
ghost use Rattle.sentry_state.specs.SpanChanges.{next_transaction_key, next_span_key, with_new_transaction, with_new_span};
ghost use Rattle.sentry_state.specs.SpanChanges.{with_transaction, with_span, with_transaction_finished, finished_span};
ghost use Rattle.sentry_state.specs.Worlds.{World, Stands, span_table};

use crate::state::State;
use sentry_base::protocol::{Span, SpanKey, Transaction, TransactionKey, TransactionOrSpanKey};
use sentry_options::Callbacks;
use sentry_plain::Boxed;
use sentry_span_table::{SpanRecord, SpanTable, TransactionRecord};
use std::alloc::AllocError;

impl<P: Drop, C: Callbacks> State<P, C> {
    /// The transaction of a key, or `None` if it isn't held.
    #[tactic(auto, using(crate::proofs::SpanKeeping::transaction_in_world))]
    pub fn transaction_at(&self, key: TransactionKey) -> Option<&TransactionRecord>
        ensures in_world { (world : World P C) → Stands self.now world →
            option_copied result ≡ stored_transaction_at world key }
        ensures in_table { option_copied result ≡ transaction_in self.now.spans key }
    {
        self.spans.transaction(key)
    }

    /// The span of a key, or `None` if it isn't held.
    #[tactic(auto, using(crate::proofs::SpanKeeping::span_in_world))]
    pub fn span_at(&self, key: SpanKey) -> Option<&SpanRecord>
        ensures in_world { (world : World P C) → Stands self.now world → option_copied result ≡ span_at world key }
        ensures in_table { option_copied result ≡ span_in self.now.spans key }
    {
        self.spans.span(key)
    }

    /// The transactions and spans, for what applies a scope.
    pub fn span_table(&self) -> &SpanTable
        ensures { (world : World P C) → Stands self.now world → result.now ≡ span_table world }
    {
        &self.spans
    }

    /// Whether nothing is named, or a transaction or a span that is held.
    pub fn holds_span(&self, span: Option<TransactionOrSpanKey>) -> bool
        ensures { (world : World P C) → Stands self.now world → result ≡ is_held (span_table world) span }
    {
        self.spans.holds(span)
    }

    /// Holds a transaction under the next number, and returns its key. If out of memory, nothing has changed.
    pub fn hold_transaction(
        &mut self,
        transaction: Boxed<TransactionRecord>,
    ) -> Result<TransactionKey, AllocError>
        requires { self.old.next.transaction < 2 ^ 64 - 1 }
        ensures in_world { IfOk result (λ key. (world : World P C) (state : TransactionHistory) →
            Stands self.old world → transaction ≡ stored_transaction state →
            (key ≡ next_transaction_key world) × Stands self.new (with_new_transaction state world)) }
        ensures err { OnErr result (self.new ≡ self.old) }
    {
        let number = self.next.transaction;
        self.hubs.expect_transaction(number)?;
        self.spans.insert_transaction(number, transaction)?;
        self.next.transaction += 1;
        Ok(TransactionKey {
            tag: self.tag,
            number,
        })
    }

    /// Holds a span under the next number, and returns its key. If out of memory, nothing has changed.
    pub fn hold_span(&mut self, span: Boxed<SpanRecord>) -> Result<SpanKey, AllocError>
        requires { self.old.next.span < 2 ^ 64 - 1 }
        ensures in_world { IfOk result (λ key. (world : World P C) → Stands self.old world →
            (key ≡ next_span_key world) × Stands self.new (with_new_span span world)) }
        ensures err { OnErr result (self.new ≡ self.old) }
    {
        let number = self.next.span;
        self.hubs.expect_span(number)?;
        self.spans.insert_span(number, span)?;
        self.next.span += 1;
        Ok(SpanKey {
            tag: self.tag,
            number,
        })
    }

    /// Notes when a span that is held finished.
    pub fn set_span_finished(&mut self, number: u64, moment: u64)
        requires { is_some (value_at self.old.spans.spans number) ≡ true }
        ensures { (world : World P C) (held : SpanRecord) → Stands self.old world →
            value_at self.old.spans.spans number ≡ Some held →
            Stands self.new (with_span number (finished_span moment held) world) }
    {
        self.spans.set_finished(number, moment);
    }

    /// Gives a transaction that is held a span that it keeps. If out of memory, nothing has changed.
    pub fn push_span(&mut self, number: u64, span: Span) -> Result<(), AllocError>
        requires { is_some (value_at self.old.spans.transactions number) ≡ true }
        ensures in_world { OnOk result ((world : World P C) (state : TransactionHistory) → Stands self.old world →
            value_at self.old.spans.transactions number ≡ Some (stored_transaction state) → fate_of state ≡ Kept →
            Stands self.new (with_transaction number (with_span_finished span state) world)) }
        ensures spans { OnOk result (self.new.spans.spans ≡ self.old.spans.spans) }
        ensures err { OnErr result (self.new ≡ self.old) }
    {
        self.spans.push_span(number, span)?;
        Ok(())
    }

    /// Moves a span that is held, and that finishes at a moment, to those that a transaction keeps, which is held too. If
    /// out of memory, nothing has changed.
    pub fn move_span(
        &mut self,
        number: u64,
        transaction: u64,
        moment: u64,
    ) -> Result<(), AllocError>
        requires span { is_some (value_at self.old.spans.spans number) ≡ true }
        requires transaction { is_some (value_at self.old.spans.transactions transaction) ≡ true }
        ensures in_world { OnOk result ((world : World P C) (held : SpanRecord) (state : TransactionHistory) →
            Stands self.old world → value_at self.old.spans.spans number ≡ Some held →
            value_at self.old.spans.transactions transaction ≡ Some (stored_transaction state) → fate_of state ≡ Kept →
            Stands self.new (record (with_transaction transaction
            (with_span_finished (finished_span moment held).span state) world) { spans = without world.spans number })) }
        ensures err { OnErr result (self.new ≡ self.old) }
    {
        self.spans.move_span(number, transaction, moment)?;
        self.hubs.forget_span(number);
        Ok(())
    }

    /// A transaction is finished, if it is held. Returns what was to be sent of it, with the spans that it kept. It takes no
    /// memory.
    pub fn close_transaction(&mut self, key: TransactionKey) -> Option<Boxed<Transaction>>
        ensures in_world { (world : World P C) → Stands self.old world → Stands self.new (with_transaction_finished key world) }
        ensures kept { (held : TransactionRecord) → transaction_in self.old.spans key ≡ Some held →
            result ≡ left_to_send held }
    {
        let Some(_held) = self.transaction_at(key) else {
            return None;
        };
        self.spans.close_transaction(key.number)
    }

    /// Forgets a transaction. It takes no memory.
    #[tactic(auto, using(crate::proofs::SpanKeeping::transaction_removed))]
    pub fn remove_transaction(&mut self, number: u64)
        ensures { (world : World P C) → Stands self.old world →
            Stands self.new (record world { transactions = without world.transactions number }) }
    {
        self.spans.remove_transaction(number);
        self.hubs.forget_transaction(number);
    }

    /// Forgets a span. It takes no memory.
    #[tactic(auto, using(crate::proofs::SpanKeeping::span_removed))]
    pub fn remove_span(&mut self, number: u64)
        ensures { (world : World P C) → Stands self.old world →
            Stands self.new (record world { spans = without world.spans number }) }
    {
        self.spans.remove_span(number);
        self.hubs.forget_span(number);
    }
}
