//! Runs of the commands are lives of a register, each law as a function that does nothing and ensures it.
//!
//! So the law `lives` of `dv_register` speaks of these runs: whatever was put in one is the certificate of a record that stands
//! at its serial number in each later one.
ghost use Rattle.std.specs.Prelude.{◌≡◌, ◌<◌, ◌≤◌, ℕ, List, IsTrue, None, Some, length};
ghost use Rattle.dv_lms.specs.Identity.{Identity};
ghost use Rattle.dv_register.specs.Lives.{IsFirstLife, IsLifeWith, line_of};
ghost use Rattle.dv_register.specs.State.{State};
ghost use Rattle.dv_register.specs.declared.refusals.Create.{Create as NotMade};
ghost use Rattle.dv_register.specs.declared.refusals.Open.{Open as NotOpened};
ghost use Rattle.dv_cert.specs.Certificates.{MayLeave};
ghost use Rattle.dv_commands.specs.Answers.{IsUnmade, IsUnopened};
ghost use Rattle.dv_commands.specs.Runs.{IsLasting, IsRunOn, IsRunOnMade, life_of, opening_of};

use dv_outside::Station;

/// A run on a register that it opened, ended or crashed at a moment from its opening on, is a life of the register with that
/// opening. At a moment before it, and where it opened none, it is a life without an opening, where a crash at its beginning
/// would have left what the file held.
pub fn runs_are_lives<V: Station>()
    ensures opened { (key : Identity) (station result : V) (opened closed : State V) (last : ℕ)
        → IsRunOn V.tells V.content V.counts key station result opened closed → IsTrue (V.tells station)
        → (V.content opened.station).moment ≤ last → last ≤ (V.content result).moment
        → IsLifeWith (line_of V.content V.counts MayLeave key opened.first)
        (life_of V.content station result last (Some (opening_of V.content V.counts opened)))
        (Some (opening_of V.content V.counts opened)) }
    ensures before { (key : Identity) (first : ℕ) (station result : V) (opened closed : State V) (last : ℕ)
        → IsRunOn V.tells V.content V.counts key station result opened closed → IsTrue (V.tells station)
        → IsLasting (V.content station)
        → (V.content station).moment ≤ last → last ≤ (V.content opened.station).moment
        → IsLifeWith (line_of V.content V.counts MayLeave key first) (life_of V.content station result last None) None }
    ensures refused { (key : Identity) (first : ℕ) (station result : V) (e : NotOpened) (last : ℕ)
        → IsUnopened V.tells V.content V.counts key station result e → IsTrue (V.tells station)
        → IsLasting (V.content station)
        → (V.content station).moment ≤ last → last ≤ (V.content result).moment
        → IsLifeWith (line_of V.content V.counts MayLeave key first) (life_of V.content station result last None) None }
{}

/// A run on a register that it made, ended or crashed at a moment from its making on, is the register's first life. Where a
/// file wasn't empty, and so no register made in it, the run is a life without an opening of the register that it may hold.
pub fn makings_are_first_lives<V: Station>()
    ensures made { (key : Identity) (first : ℕ) (station result : V) (made closed : State V) (last : ℕ)
        → IsRunOnMade V.tells V.content V.counts key first station result made closed → IsTrue (V.tells station)
        → (V.content made.station).moment ≤ last → last ≤ (V.content result).moment
        → IsFirstLife (line_of V.content V.counts MayLeave key first)
        (life_of V.content station result last (Some (opening_of V.content V.counts made))) }
    ensures refused { (key : Identity) (first : ℕ) (station result : V) (e : NotMade) (last : ℕ)
        → IsUnmade V.tells V.content V.counts key station result e → IsTrue (V.tells station)
        → 0 < length (V.content station).reads → IsLasting (V.content station)
        → (V.content station).moment ≤ last → last ≤ (V.content result).moment
        → IsLifeWith (line_of V.content V.counts MayLeave key first) (life_of V.content station result last None) None }
{}
