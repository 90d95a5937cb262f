//! Worked programs with their first faults, and two that have none.
ghost use Rattle.sot_rules.specs.Examples.{FirstOfUnknownName, FirstOfSecondName};
ghost use Rattle.sot_rules.specs.Examples.{FirstOfOtherScale, FirstOfOtherKind, FirstOfEmptyRange};
ghost use Rattle.sot_rules.specs.Examples.{FirstOfOutsideStart, FirstOfOwnInput, FirstOfNineFields};
ghost use Rattle.sot_rules.specs.Examples.{FirstOfWideRange, FirstOfLonePlant, FirstOfNoPeriod};
ghost use Rattle.sot_rules.specs.Examples.{FirstOfNoNext, FirstOfSwappedNext, FirstOfTwoAtOne};
ghost use Rattle.sot_rules.specs.Examples.{FirstOfTwoPlaces, FirstOfTwoTruths, FirstOfBareRecord};
ghost use Rattle.sot_rules.specs.Examples.{FirstOfHiddenTopic, FirstOfOwnNameSeen};
ghost use Rattle.sot_rules.specs.Examples.{FirstOfManyStatements, FirstOfLateOffset};
ghost use Rattle.sot_rules.specs.Examples.{FirstOfWideBox, OtherOfTwoAtOne, NoneInTheLine};
ghost use Rattle.sot_rules.specs.Examples.{NoneInTheRest};

/// The first faults of worked programs: each rule once, and the order of two faults.
pub fn first_faults_are_as_stated()
    ensures unknown_name { FirstOfUnknownName }
    ensures second_name { FirstOfSecondName }
    ensures other_scale { FirstOfOtherScale }
    ensures other_kind { FirstOfOtherKind }
    ensures empty_range { FirstOfEmptyRange }
    ensures outside_start { FirstOfOutsideStart }
    ensures own_input { FirstOfOwnInput }
    ensures nine_fields { FirstOfNineFields }
    ensures wide_range { FirstOfWideRange }
    ensures lone_plant { FirstOfLonePlant }
    ensures no_period { FirstOfNoPeriod }
    ensures no_next { FirstOfNoNext }
    ensures swapped_next { FirstOfSwappedNext }
    ensures two_at_one { FirstOfTwoAtOne }
    ensures two_places { FirstOfTwoPlaces }
    ensures two_truths { FirstOfTwoTruths }
    ensures bare_record { FirstOfBareRecord }
    ensures hidden_topic { FirstOfHiddenTopic }
    ensures own_name_seen { FirstOfOwnNameSeen }
    ensures many_statements { FirstOfManyStatements }
    ensures late_offset { FirstOfLateOffset }
    ensures wide_box { FirstOfWideBox }
    ensures other_of_two { OtherOfTwoAtOne }
{}

/// Programs that break no rule.
pub fn faultless_programs_are_as_stated()
    ensures the_line { NoneInTheLine }
    ensures the_rest { NoneInTheRest }
{}
