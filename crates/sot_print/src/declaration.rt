//! Declarations.
ghost use Rattle.std.specs.Prelude.{◌≡◌, ◌∷◌, ◌==◌, ◌++◌, true, map, OnOk};
ghost use Rattle.std.specs.String.{string_bytes};
ghost use Rattle.sot_syntax_tree.specs.TreeViews.{topic_view, next_view, plant_view, local_view};
ghost use Rattle.sot_syntax_tree.specs.TreeViews.{node_view, area_view, module_view};
ghost use Rattle.sot_syntax_tree.specs.TreeViews.{declaration_view};
ghost use Rattle.sot_syntax_tree.specs.TreeViews.{block_view};
ghost use Rattle.sot_print.specs.declared.gap.Gap.TheVariants.{Space};
ghost use Rattle.sot_print.specs.Words.{laid, keyword};
ghost use Rattle.sot_print.specs.Leaves.{ident_words};
ghost use Rattle.sot_print.specs.Canonical.{clause, closing, each, next_clause, plant_clauses};
ghost use Rattle.sot_print.specs.Canonical.{local_clause, do_clause, node_clauses, node_head_words};
ghost use Rattle.sot_print.specs.Canonical.{bar, areas_from, area_words, region_words};
ghost use Rattle.sot_print.specs.Canonical.{control_clauses, region_clauses, topic_head_words};
ghost use Rattle.sot_print.specs.Canonical.{topic_words, plant_words, node_words, module_words};
ghost use Rattle.sot_print.specs.Canonical.{declaration_words};

use crate::clause::{
    push_clause_word, push_init, push_local_clause, push_name_clause, push_names_clause,
    push_next_clause, push_noise_clause, push_shape, push_sides, push_state_clause, push_timing,
};
use crate::gap::{Gap, push_word};
use crate::leaf::push_ident;
use crate::statement::{push_block, push_semicolon};
use sot_syntax_tree::{
    BoxDecl, Decl, Ident, LocalDecl, ModuleDecl, NextDecl, NodeDecl, PlantDecl, Stmt, TopicDecl,
};
use std::alloc::AllocError;

// The closing brace of a declaration.
fn push_closing(out: &mut String) -> Result<(), AllocError>
    ensures { OnOk result (string_bytes out.new ≡ string_bytes out.old ++ laid closing) }
{
    push_word(out, Gap::Line { indent: 0 }, "}")
}

// The word that begins a declaration, and its name.
fn push_head(out: &mut String, gap: Gap, word: &str, ident: &Ident) -> Result<(), AllocError>
    ensures { OnOk result (string_bytes out.new
        ≡ string_bytes out.old ++ laid (keyword gap word.now ∷ ident_words Space ident.now)) }
{
    push_word(out, gap, word)?;
    push_ident(out, Gap::Space, ident)
}

fn push_topic_head(out: &mut String, gap: Gap, outside: bool) -> Result<(), AllocError>
    ensures { OnOk result (string_bytes out.new
        ≡ string_bytes out.old ++ laid (topic_head_words gap outside)) }
{
    if outside {
        push_word(out, gap, "environment")?;
        push_word(out, Gap::Space, "topic")
    } else {
        push_word(out, gap, "topic")
    }
}

fn push_topic(out: &mut String, gap: Gap, topic: &TopicDecl) -> Result<(), AllocError>
    ensures { OnOk result (string_bytes out.new
        ≡ string_bytes out.old ++ laid (topic_words gap (topic_view topic.now))) }
{
    push_topic_head(out, gap, topic.outside)?;
    push_ident(out, Gap::Space, &topic.name)?;
    push_word(out, Gap::Touching, ":")?;
    push_shape(out, &topic.shape)?;
    push_word(out, Gap::Space, "=")?;
    push_init(out, &topic.init)?;
    push_semicolon(out)
}

// The `next` clauses of a plant.
fn push_next_clauses(out: &mut String, clauses: &[NextDecl]) -> Result<(), AllocError>
    ensures { OnOk result (string_bytes out.new
        ≡ string_bytes out.old ++ laid (each next_clause (map next_view clauses.now))) }
{
    for clause in clauses {
        push_next_clause(out, clause)?;
    }
    Ok(())
}

// The clauses of a plant that stand before `next`.
fn push_plant_clauses(out: &mut String, plant: &PlantDecl) -> Result<(), AllocError>
    ensures { OnOk result (string_bytes out.new
        ≡ string_bytes out.old ++ laid (plant_clauses (plant_view plant.now))) }
{
    push_state_clause(out, &plant.states)?;
    push_names_clause(out, "input", &plant.inputs)?;
    push_names_clause(out, "sees", &plant.sees)?;
    push_noise_clause(out, &plant.noise)
}

fn push_plant(out: &mut String, gap: Gap, plant: &PlantDecl) -> Result<(), AllocError>
    ensures { OnOk result (string_bytes out.new
        ≡ string_bytes out.old ++ laid (plant_words gap (plant_view plant.now))) }
{
    push_head(out, gap, "plant", &plant.name)?;
    push_word(out, Gap::Space, "{")?;
    push_plant_clauses(out, plant)?;
    push_next_clauses(out, &plant.next)?;
    push_closing(out)
}

// The locals of a node.
fn push_local_clauses(out: &mut String, locals: &[LocalDecl]) -> Result<(), AllocError>
    ensures { OnOk result (string_bytes out.new
        ≡ string_bytes out.old ++ laid (each local_clause (map local_view locals.now))) }
{
    for local in locals {
        push_local_clause(out, local)?;
    }
    Ok(())
}

fn push_do(out: &mut String, block: &[Stmt]) -> Result<(), AllocError>
    ensures { OnOk result (string_bytes out.new
        ≡ string_bytes out.old ++ laid (do_clause (block_view block.now))) }
{
    push_clause_word(out, "do")?;
    push_block(out, 2, block)
}

// What a node reads and writes, and its locals.
fn push_node_clauses(out: &mut String, node: &NodeDecl) -> Result<(), AllocError>
    ensures { OnOk result (string_bytes out.new
        ≡ string_bytes out.old ++ laid (node_clauses (node_view node.now))) }
{
    push_names_clause(out, "reads", &node.reads)?;
    push_names_clause(out, "writes", &node.writes)?;
    push_local_clauses(out, &node.locals)
}

// A node up to its opening brace.
fn push_node_head(out: &mut String, gap: Gap, word: &str, node: &NodeDecl) -> Result<(), AllocError>
    ensures { OnOk result (string_bytes out.new
        ≡ string_bytes out.old ++ laid (node_head_words gap word.now (node_view node.now))) }
{
    push_head(out, gap, word, &node.name)?;
    push_timing(out, Gap::Space, node.period, node.offset)?;
    push_word(out, Gap::Space, "{")
}

fn push_node(out: &mut String, gap: Gap, node: &NodeDecl) -> Result<(), AllocError>
    ensures { OnOk result (string_bytes out.new
        ≡ string_bytes out.old ++ laid (node_words gap (node_view node.now))) }
{
    match &node.body {
        None => {
            push_node_head(out, gap, "external", node)?;
            push_node_clauses(out, node)?;
        }
        Some(block) => {
            push_node_head(out, gap, "node", node)?;
            push_node_clauses(out, node)?;
            push_do(out, block)?;
        }
    }
    push_closing(out)
}

fn push_area(out: &mut String, area: &BoxDecl) -> Result<(), AllocError>
    ensures { OnOk result (string_bytes out.new
        ≡ string_bytes out.old ++ laid (area_words (area_view area.now))) }
{
    push_word(out, Gap::Space, "[")?;
    push_sides(out, Gap::Touching, &area.sides)?;
    push_word(out, Gap::Touching, "]")
}

// A bar, unless the box is the first of its region.
fn push_bar(out: &mut String, place: usize) -> Result<(), AllocError>
    ensures { OnOk result (string_bytes out.new ≡ string_bytes out.old ++ laid (bar (place == 0))) }
{
    if place == 0 {
        return Ok(());
    }
    push_word(out, Gap::Space, "|")
}

// Boxes, with bars.
fn push_areas(out: &mut String, areas: &[BoxDecl]) -> Result<(), AllocError>
    ensures { OnOk result (string_bytes out.new
        ≡ string_bytes out.old ++ laid (areas_from true (map area_view areas.now))) }
{
    for (place, area) in areas.iter().enumerate() {
        push_bar(out, place)?;
        push_area(out, area)?;
    }
    Ok(())
}

fn push_region(out: &mut String, areas: &[BoxDecl]) -> Result<(), AllocError>
    ensures { OnOk result (string_bytes out.new
        ≡ string_bytes out.old ++ laid (region_words (map area_view areas.now))) }
{
    if areas.is_empty() {
        return push_word(out, Gap::Space, "none");
    }
    push_areas(out, areas)
}

// A clause of a region.
fn push_region_clause(out: &mut String, word: &str, areas: &[BoxDecl]) -> Result<(), AllocError>
    ensures { OnOk result (string_bytes out.new
        ≡ string_bytes out.old ++ laid (clause word.now (region_words (map area_view areas.now)))) }
{
    push_clause_word(out, word)?;
    push_region(out, areas)?;
    push_semicolon(out)
}

// The clauses of a module up to its timing.
fn push_control_clauses(out: &mut String, declared: &ModuleDecl) -> Result<(), AllocError>
    ensures { OnOk result (string_bytes out.new
        ≡ string_bytes out.old ++ laid (control_clauses (module_view declared.now))) }
{
    push_name_clause(out, "ac", &declared.ac)?;
    push_name_clause(out, "sc", &declared.sc)?;
    push_timing(
        out,
        Gap::Line { indent: 2 },
        declared.period,
        declared.offset,
    )?;
    push_semicolon(out)
}

// The clauses of a module behind its timing.
fn push_plant_regions(out: &mut String, declared: &ModuleDecl) -> Result<(), AllocError>
    ensures { OnOk result (string_bytes out.new
        ≡ string_bytes out.old ++ laid (region_clauses (module_view declared.now))) }
{
    push_name_clause(out, "plant", &declared.plant)?;
    push_region_clause(out, "safe", &declared.safe)?;
    push_region_clause(out, "safer", &declared.safer)
}

fn push_module(out: &mut String, gap: Gap, declared: &ModuleDecl) -> Result<(), AllocError>
    ensures { OnOk result (string_bytes out.new
        ≡ string_bytes out.old ++ laid (module_words gap (module_view declared.now))) }
{
    push_head(out, gap, "module", &declared.name)?;
    push_word(out, Gap::Space, "{")?;
    push_control_clauses(out, declared)?;
    push_plant_regions(out, declared)?;
    push_closing(out)
}

pub fn push_declaration(out: &mut String, gap: Gap, declaration: &Decl) -> Result<(), AllocError>
    ensures { OnOk result (string_bytes out.new
        ≡ string_bytes out.old ++ laid (declaration_words gap (declaration_view declaration.now))) }
{
    match declaration {
        Decl::Topic(topic) => push_topic(out, gap, topic),
        Decl::Plant(plant) => push_plant(out, gap, plant.content()),
        Decl::Node(node) => push_node(out, gap, node.content()),
        Decl::Module(declared) => push_module(out, gap, declared.content()),
    }
}
