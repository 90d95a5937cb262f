//! Worked missions and their sections.
ghost use Rattle.sot_sections.specs.SectionExamples.{AllParts, PartsForFlight, PartsForCheck};
ghost use Rattle.sot_sections.specs.SectionExamples.{LinesEndWithCr, TwoCrs, UnknownFarBehind};
ghost use Rattle.sot_sections.specs.SectionExamples.{Repeated, OutOfOrder, Skipped, EmptyText};
ghost use Rattle.sot_sections.specs.SectionExamples.{SectionsAreTheText};

/// Worked missions and their sections, and that the sections of a text put together are the text.
pub fn sections_are_as_stated()
    ensures all_parts { AllParts }
    ensures for_flight { PartsForFlight }
    ensures for_check { PartsForCheck }
    ensures cr { LinesEndWithCr }
    ensures two_crs { TwoCrs }
    ensures unknown { UnknownFarBehind }
    ensures repeated { Repeated }
    ensures order { OutOfOrder }
    ensures skipped { Skipped }
    ensures empty { EmptyText }
    ensures joined { SectionsAreTheText }
{}
