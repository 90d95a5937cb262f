//! The small readers of JSON values, each once.
use super::same;
use serde_json::Value;
use sot_json::{
    JsonFail, JsonKind, Path, count_of, fault_at, fault_under, fault_under_index, has_only,
    member_of, two_of, value_of, whole_of,
};
use std::alloc::Global;
use std::process::Abort;

fn fail_text(rt: &impl Abort, alloc: Global, fail: JsonFail) -> String {
    match fail {
        JsonFail::Memory => String::from_str(alloc, "memory").expect(rt, "memory"),
        JsonFail::Fault(fault) => {
            let (path, kind) = (fault.path.as_str(), fault.kind);
            format!(in alloc; "{path} {kind:?}").expect(rt, "memory")
        }
    }
}

// The fault has this path and kind.
fn fails(rt: &impl Abort, alloc: Global, fail: JsonFail, wanted: &str) {
    let got = fail_text(rt, alloc, fail);
    same(rt, wanted, got.as_str(), wanted);
}

// The number, or the fault, is this one.
fn reads(rt: &impl Abort, alloc: Global, read: Result<i64, JsonFail>, wanted: &str) {
    let got = match read {
        Ok(number) => format!(in alloc; "{number}").expect(rt, "memory"),
        Err(fail) => fail_text(rt, alloc, fail),
    };
    same(rt, wanted, got.as_str(), wanted);
}

fn value_from(rt: &impl Abort, alloc: Global, text: &str) -> Value {
    match value_of(alloc, text.as_bytes()) {
        Ok(value) => value,
        Err(_) => panic!(rt; "no JSON: {text}"),
    }
}

// One key more, inside.
fn below(rt: &impl Abort, alloc: Global, path: Path, key: &str) -> Path {
    path.below(alloc, key).expect(rt, "memory")
}

fn paths_escape_two_signs(rt: &impl Abort, alloc: Global) {
    let path = Path::root(alloc);
    same(rt, "root", path.as_str(), "");
    let path = below(rt, alloc, path, "0");
    let path = below(rt, alloc, path, "a/b~c\u{e9}");
    let path = below(rt, alloc, path, "");
    same(rt, "path", path.as_str(), "//a~1b~0c\u{e9}/0");
}

fn faults_pass_outwards(rt: &impl Abort, alloc: Global) {
    let fail = fault_at(alloc, JsonKind::GuestTwice);
    let fail = fault_under_index(alloc, 12, fail);
    let fail = fault_under(alloc, "crew", fail);
    fails(rt, alloc, fail, "/crew/12 GuestTwice");
    let fail = fault_under(alloc, "crew", JsonFail::Memory);
    fails(rt, alloc, fail, "memory");
}

// A text as a number from -3 to 5, and as a count of at most 6.
fn reads_both(rt: &impl Abort, alloc: Global, text: &str, wanted: &str, counted: &str) {
    let value = value_from(rt, alloc, text);
    reads(rt, alloc, whole_of(alloc, -3, 5, &value), wanted);
    let count = count_of(alloc, 6, &value).map(|n| n as i64);
    reads(rt, alloc, count, counted);
}

#[test]
fn faults_numbers_and_paths_are_read(rt: HostRuntime) {
    paths_escape_two_signs(&rt, rt.alloc());
    faults_pass_outwards(&rt, rt.alloc());
    same(
        &rt,
        "kinds",
        JsonKind::NotJson == JsonKind::WrongShape,
        false,
    );
    for (text, wanted, counted) in [
        ("-3", "-3", " OutsideRange"),
        ("5", "5", "5"),
        ("6", " OutsideRange", "6"),
        ("7", " OutsideRange", " OutsideRange"),
        ("-4", " OutsideRange", " OutsideRange"),
        ("0.5", " NotWhole", " NotWhole"),
        ("[]", " WrongShape", " WrongShape"),
    ] {
        reads_both(&rt, rt.alloc(), text, wanted, counted);
    }
}

// The list of a member.
fn list_at<'a>(rt: &impl Abort, value: &'a Value, key: &str) -> &'a Vec<Value> {
    let object = value.as_object().expect(rt, "an object");
    let member = member_of(object, key).expect(rt, "a member");
    member.as_array().expect(rt, "a list")
}

#[test]
fn keys_are_known_or_not_and_the_last_member_of_a_name_counts(rt: HostRuntime) {
    let value = value_from(&rt, rt.alloc(), r#"{"b":[1,2],"a":[1,2,3],"a":[4]}"#);
    let object = value.as_object().expect(&rt, "an object");
    same(&rt, "all", has_only(object, &["a", "b"]), true);
    same(&rt, "more", has_only(object, &["x", "b", "a"]), true);
    same(&rt, "less", has_only(object, &["a"]), false);
    same(&rt, "no c", member_of(object, "c").is_none(), true);
    let last = list_at(&rt, &value, "a");
    same(&rt, "one", last.len(), 1);
    same(&rt, "no pair", two_of(last).is_none(), true);
    let (first, second) = two_of(list_at(&rt, &value, "b")).expect(&rt, "a pair");
    same(&rt, "first", first.as_i64(), Some(1));
    same(&rt, "second", second.as_i64(), Some(2));
}
