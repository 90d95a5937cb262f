//! Each of these functions does nothing, and its contract is the law.

ghost use Rattle.std.specs.Global.{Global};
ghost use Rattle.sot_law_guard_fallback.specs.Distrust.{
  AsidesEndNoTrust,
  AsidesKeepTrust,
  BlindEndsTrust,
  DistrustLastsUntilAResume,
  DistrustedInstantsAreSafe,
  DistrustedTalksAreInModeSc,
  EndOfTrustAsksSafeNodes,
  IgnoredLinesChangeNothing,
  ModesStaySc,
  NoOtherLineBringsTrustBack,
  OutsideEndsTrust,
  TrustEndsByAnOutside,
};
ghost use Rattle.sot_law_guard_fallback.specs.Examples.{
  LineHoldsSafeDraft,
  LineKeepsCommand,
  LineLeavesSc,
  LineOnlyStaysSc,
  LineStaysSc,
};

/// Once the models are not trusted, they are trusted again only since a `resume` that was answered
/// `resumed`.
pub fn distrust_lasts_until_a_resume()
    ensures talk { DistrustLastsUntilAResume }
    ensures line { NoOtherLineBringsTrustBack }
{}

/// Where the trust ends in a line, its answer tells a plant to be outside its model, or that the
/// line could not be taken.
pub fn trust_ends_by_an_outside()
    ensures { TrustEndsByAnOutside }
{}

/// Where a tick is answered at all, the trust ends with it, and every module is in mode SC.
pub fn outside_ends_trust()
    ensures { OutsideEndsTrust }
{}

/// Whatever a line says that begins as a draft or an input, the trust stays as it was; and where it
/// begins as a resume, the trust does not end.
pub fn asides_keep_trust()
    ensures drafts_and_inputs { AsidesKeepTrust }
    ensures resumes { AsidesEndNoTrust }
{}

/// A draft, an input or a resume that is ignored changes nothing.
pub fn ignored_lines_change_nothing()
    ensures { IgnoredLinesChangeNothing }
{}

/// Where a tick ends the trust, the safe node of each module is left to fire at once.
pub fn end_of_trust_asks_safe_nodes()
    ensures { EndOfTrustAsksSafeNodes }
{}

/// A line that could not be taken ends the trust, and every module is in mode SC.
pub fn blind_ends_trust()
    ensures { BlindEndsTrust }
{}

/// Every module stays in mode SC where the models are not trusted.
pub fn modes_stay_sc()
    ensures { ModesStaySc }
{}

/// A talk that begins with trust has every module in mode SC wherever it has lost it.
pub fn distrusted_talks_are_in_mode_sc()
    ensures { DistrustedTalksAreInModeSc }
{}

/// In each instant without trust each decision that is told is for mode SC, and the numbers that
/// are held come from nodes that are no module's advanced controller.
pub fn distrusted_instants_are_safe()
    ensures { DistrustedInstantsAreSafe }
{}

/// The running example without trust stays in mode SC where with trust it would leave it, and
/// what its advanced node drafts is not held.
pub fn line_is_distrusted()
    ensures leaves_sc { (g : Global) → LineLeavesSc g }
    ensures stays_sc { (g : Global) → LineStaysSc g }
    ensures only_stays_sc { (g : Global) → LineOnlyStaysSc g }
    ensures keeps_command { (g : Global) → LineKeepsCommand g }
    ensures holds_safe_draft { (g : Global) → LineHoldsSafeDraft g }
{}
