//! Programs with other regions, by their canonical texts.
use super::same;
use sot_box::{BoxN, Interval, Region};
use sot_parser::{ParseFail, parse};
use sot_print::print;
use sot_regions_rewrite::{ModuleRegions, with_regions};
use sot_syntax_tree::{BoxDecl, Decl, Program};
use sot_text::Lexer;
use std::alloc::Global;
use std::process::Abort;

fn program_of(rt: &impl Abort, alloc: Global, text: &str) -> Program {
    if text.len() > 10_000 {
        panic!(rt; "a text that is too long");
    }
    match parse(alloc, &Lexer::new(text.as_bytes())) {
        Ok(program) => program,
        Err(ParseFail::Memory) => panic!(rt; "memory"),
        Err(ParseFail::Syntax(_)) => panic!(rt; "no program: {text}"),
    }
}

// A box, whose ends are written in scaled units.
fn box_of(rt: &impl Abort, alloc: Global, written: &BoxDecl) -> BoxN {
    let mut sides = Vec::new(alloc);
    for i in 0..written.sides.len() {
        let ends = written.sides[i];
        let side = Interval::new(ends.lo.mantissa, ends.hi.mantissa).expect(rt, "a side");
        sides.push(side).expect(rt, "memory");
    }
    BoxN::of(&sides).expect(rt, "a box")
}

// A region of boxes, all of them as wide as the first.
fn region_of(rt: &impl Abort, alloc: Global, written: &[BoxDecl]) -> Region {
    if written.len() == 0 {
        return Region::none(alloc, 1);
    }
    let first = box_of(rt, alloc, &written[0]);
    let mut region = Region::none(alloc, first.len());
    region.push(first).expect(rt, "memory");
    for i in 1..written.len() {
        let b = box_of(rt, alloc, &written[i]);
        let hull = region.hull().expect(rt, "a hull");
        if b.len() != hull.len() {
            panic!(rt; "another width");
        }
        region.push(b).expect(rt, "memory");
    }
    region
}

// The regions of the modules of a text, whose ends are written in scaled units.
fn regions_of(rt: &impl Abort, alloc: Global, text: &str) -> Vec<ModuleRegions> {
    let program = program_of(rt, alloc, text);
    let mut regions = Vec::new(alloc);
    for k in 0..program.decls.len() {
        if let Decl::Module(module) = &program.decls[k] {
            let safe = region_of(rt, alloc, &module.content().safe);
            let safer = region_of(rt, alloc, &module.content().safer);
            regions
                .push(ModuleRegions { safe, safer })
                .expect(rt, "memory");
        }
    }
    regions
}

// A text with the regions of the modules of another text is this one.
fn changes(rt: &impl Abort, alloc: Global, text: &str, found: &str, want: &str) {
    let regions = regions_of(rt, alloc, found);
    let program = program_of(rt, alloc, text);
    let changed = with_regions(alloc, program, &regions).expect(rt, "memory");
    let got = print(alloc, &changed).expect(rt, "memory");
    same(rt, (text, found), got.as_str(), want);
}

// A module with this name and these regions, as it is printed.
fn module_text(rt: &impl Abort, alloc: Global, name: &str, regions: &str) -> String {
    format!(in alloc;
        "module {name} {{
  ac fast;
  sc slow;
  period 4 offset 0;
  plant car;
  {regions}
}}
"
    )
    .expect(rt, "memory")
}

#[test]
fn a_module_gets_boxes_like_its_own(rt: HostRuntime) {
    let alloc = rt.alloc();
    for (given, found, want) in [
        // each end with the decimals of the end in its place
        (
            "safe [-40..40, 0..1.5];\n  safer none;",
            "safe [-12..34, 5..15] | [0..0, -1..-1]; safer [-3..3, 7..8] | [3..4, 9..100];",
            "safe [-12..34, 5..1.5] | [0..0, -1..-0.1];
  safer [-3..3, 7..0.8] | [3..4, 9..10.0];",
        ),
        // like the first one, whatever the others have
        (
            "safe [0.00..1.00, 0..1] | [0..1, 0.0..1.0];\n  safer [0..0, 0..0];",
            "safe [1..100, 2..3] | [-250..-5, -7..7]; safer [0..0, 0..0] | [99..101, 1..2];",
            "safe [0.01..1.00, 2..3] | [-2.50..-0.05, -7..7];
  safer [0.00..0.00, 0..0] | [0.99..1.01, 1..2];",
        ),
        // nothing to write one like
        (
            "safe none;\n  safer [1..2, 3..4];",
            "safe [1..2, 3..4] | [5..6, 7..8]; safer [1..2, 3..4];",
            "safe none;\n  safer none;",
        ),
        // none found
        (
            "safe [0..9, 0..9];\n  safer [1..2, 1..2];",
            "safe none; safer none;",
            "safe none;\n  safer none;",
        ),
        (
            "safe [0..9, 0..9];\n  safer [1..2, 1..2];",
            "safe [1..2, 3..4]; safer none;",
            "safe [1..2, 3..4];\n  safer none;",
        ),
        // fewer sides than are written, and more
        (
            "safe [0..9, 0..9];\n  safer none;",
            "safe [1..2]; safer [1..2, 3..4, 5..6];",
            "safe [1..2];\n  safer [1..2, 3..4];",
        ),
    ] {
        let text = module_text(&rt, alloc, "nav", given);
        let found = module_text(&rt, alloc, "found", found);
        let want = module_text(&rt, alloc, "nav", want);
        changes(&rt, alloc, text.as_str(), found.as_str(), want.as_str());
    }
}

// A topic, two modules with these regions, and a node between them.
fn two_modules(rt: &impl Abort, alloc: Global, first: &str, second: &str) -> String {
    let one = module_text(rt, alloc, "one", first);
    let two = module_text(rt, alloc, "two", second);
    format!(in alloc;
        "topic cmd: int[-2..2] = 0;
{one}external fast period 4 offset 0 {{
  reads car;
  writes cmd;
}}
{two}"
    )
    .expect(rt, "memory")
}

const OWN_ONE: &str = "safe [0..9];\n  safer [1..1];";

const OWN_TWO: &str = "safe [0.0..0.9];\n  safer none;";

const NEW_ONE: &str = "safe [2..3];\n  safer [4..15];";

const NEW_TWO: &str = "safe [0.4..1.5];\n  safer none;";

#[test]
fn modules_get_regions_in_declared_order(rt: HostRuntime) {
    let alloc = rt.alloc();
    let text = two_modules(&rt, alloc, OWN_ONE, OWN_TWO);
    let first = module_text(&rt, alloc, "a", "safe [2..3]; safer [4..15];");
    let both = two_modules(
        &rt,
        alloc,
        "safe [2..3]; safer [4..15];",
        "safe [4..15]; safer none;",
    );
    let want_first = two_modules(&rt, alloc, NEW_ONE, OWN_TWO);
    let want_both = two_modules(&rt, alloc, NEW_ONE, NEW_TWO);
    changes(&rt, alloc, text.as_str(), "", text.as_str());
    changes(
        &rt,
        alloc,
        text.as_str(),
        first.as_str(),
        want_first.as_str(),
    );
    changes(&rt, alloc, text.as_str(), both.as_str(), want_both.as_str());
}

#[test]
fn pairs_without_a_module_change_nothing(rt: HostRuntime) {
    let alloc = rt.alloc();
    let text = module_text(&rt, alloc, "one", OWN_ONE);
    let two = two_modules(
        &rt,
        alloc,
        "safe [2..3]; safer [4..15];",
        "safe [4..15]; safer none;",
    );
    let want = module_text(&rt, alloc, "one", NEW_ONE);
    changes(&rt, alloc, text.as_str(), two.as_str(), want.as_str());
    changes(&rt, alloc, "", two.as_str(), "");
    let topic = "topic cmd: int[-2..2] = 0;\n";
    changes(&rt, alloc, topic, two.as_str(), topic);
}
