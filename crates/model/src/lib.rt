// A bank's core: its model programs on a device, and the promise that they keep, over every life and every cut.
#![tactic(auto)]

ghost use Rattle.std.specs.Prelude.{◌≡◌, true};
ghost use Rattle.bank.specs.Calls.{Limits};
ghost use Rattle.bank.specs.Promise.{allowed, readable};
ghost use Rattle.model.specs.Core.{IsTheCoreBy, IsTheFirstCoreBy, ThroughEveryLife};
ghost use Rattle.model.specs.First.{first_call, first_program, FirstReading};
ghost use Rattle.model.specs.Whole.{whole_program, WholeReading, SnapshotFits};
ghost use Rattle.model.specs.Flushes.{FlushesExact, FirstFlushesExact};
ghost use Rattle.model.specs.Bytes.{JournalBytes, SnapshotBytes};
ghost use Rattle.model.specs.Recovery.{Recovers, FirstRecovers};
ghost use Rattle.model.specs.Opening.{FirstLimitsTold, LimitsTold, NeverRefused, FirstNeverRefused, AlwaysOpens, FirstAlwaysOpens};

// The first stage's program is the bank, for all limits that may be given.
pub fn first_core_stands() -> u8
    ensures core { IsTheFirstCoreBy first_program FirstReading }
    ensures lives { (l : Limits) → allowed l ≡ true → ThroughEveryLife l (first_program l) first_call }
    ensures flushes { (l : Limits) → FirstFlushesExact l }
    ensures limits { (l : Limits) → allowed l ≡ true → FirstLimitsTold l }
    ensures recovers { (l : Limits) → allowed l ≡ true → FirstRecovers l }
    ensures opens { (l : Limits) → FirstNeverRefused l }
    ensures reopens { (l : Limits) → allowed l ≡ true → FirstAlwaysOpens l }
{
    0
}

// The whole program is the bank, for all limits that may be given.
pub fn core_stands() -> u8
    ensures core { IsTheCoreBy whole_program WholeReading }
    ensures lives { (l : Limits) → allowed l ≡ true → ThroughEveryLife l (whole_program l) readable }
    ensures flushes { (l : Limits) → FlushesExact l }
    ensures limits { (l : Limits) → LimitsTold l }
    ensures recovers { (l : Limits) → allowed l ≡ true → Recovers l }
    ensures opens { (l : Limits) → allowed l ≡ true → NeverRefused l }
    ensures reopens { (l : Limits) → allowed l ≡ true → AlwaysOpens l }
{
    0
}

// The format in plain numbers.
pub fn bytes_stand() -> u8
    ensures journal { JournalBytes }
    ensures snapshot { SnapshotBytes }
{
    0
}

// Every number of a book that calls bring about fits its field in a snapshot.
pub fn snapshot_fits_stands() -> u8
    ensures { SnapshotFits }
{
    0
}
