//! What holds of every folder, and of every two names.
ghost use Rattle.std.specs.Prelude.{◌≡◌, ◌≢◌, ℕ, ◌<◌, ◌≤◌, ◌^◌, Bool, List, Some, None};
ghost use Rattle.sentry_plain.specs.Texts.{Bytes};
ghost use Rattle.sentry_writers.specs.declared.stamps.Stamp.{Stamp};
ghost use Rattle.sentry_writers.specs.Folders.{FolderCall, ArePutCalls, Runs, put_calls};
ghost use Rattle.sentry_writers.specs.FolderStates.{Files, IsSeenAlong, MayMake, ShowsWhole};
ghost use Rattle.sentry_writers.specs.NameOrder.{Precedes};
ghost use Rattle.sentry_writers.specs.Stamps.{file_name, partial_name};

/// Whoever looks into a folder while a file is put into it, or after that failed, finds that file whole or not at all,
/// and each other one as it was; and the file is there once all is done.
pub fn files_are_whole()
    ensures seen { (partial name text : Bytes) (done : Bool) (calls : List FolderCall) → name ≢ partial
        → ArePutCalls partial name text done calls → (old seen : Files) → IsSeenAlong calls old seen
        → ShowsWhole partial name text old seen }
    ensures done { (partial name text : Bytes) (old new : Files) → Runs MayMake (put_calls partial name text) old new
        → (new name ≡ Some text) × (new partial ≡ None) }
{}

/// Of two stamps, of which one was made after the other, the names stand in that order; and a file that is being written
/// has another name than any that is whole.
pub fn names_are_in_order()
    ensures order { (a b : Stamp) → a.moment ≤ b.moment → a.count < b.count → b.moment < 2 ^ 64 → b.count < 2 ^ 64
        → Precedes (file_name a) (file_name b) }
    ensures apart { (stamp : Stamp) → file_name stamp ≢ partial_name stamp }
{}
