//! The commands of the table: lines that are accepted, and lines that are refused.
use super::answer;
use std::test::Fail;

#[test]
fn a_host_has_a_name_and_may_have_a_limit(rt: HostRuntime) -> Result<(), Fail> {
    const ROWS: &[(&str, &str)] = &[
        (r#""limit":1"#, "field name"),
        (r#""name":"h""#, "ok"),
        (r#""name":"h","limit":0"#, "number limit"),
        (r#""name":"h","limit":1"#, "ok"),
        (r#""name":"h","limit":1024"#, "ok"),
        (r#""name":"h","limit":1025"#, "number limit"),
        (r#""name":"h","limit":null"#, "field limit"),
        (r#""name":"h","limit":"1""#, "field limit"),
        (r#""name":"h","limit":[1]"#, "field limit"),
        (r#""name":"H","limit":0"#, "field name"),
        (r#""limit":0,"name":"H""#, "field name"),
        (r#""limit":0,"name":"h""#, "number limit"),
    ];
    let front = r#"{"cmd":"host","#;
    answer(&rt, rt.alloc(), front, ROWS, "}")
}

#[test]
fn reset_has_a_machine_and_a_disk(rt: HostRuntime) -> Result<(), Fail> {
    const ROWS: &[(&str, &str)] = &[
        (r#""vm":"a","disk":0"#, "ok"),
        (r#""disk":0"#, "field vm"),
        (r#""vm":"a""#, "field disk"),
        (r#""disk":4294967296"#, "field vm"),
        (r#""vm":5,"disk":4294967296"#, "field vm"),
        (r#""vm":"a","disk":0,"first":0"#, "field first"),
    ];
    let front = r#"{"cmd":"reset","#;
    answer(&rt, rt.alloc(), front, ROWS, "}")
}

#[test]
fn a_move_has_a_name_sectors_and_writes(rt: HostRuntime) -> Result<(), Fail> {
    const ROWS: &[(&str, &str)] = &[
        (r#""name":"a","sectors":256,"writes":[]"#, "ok"),
        (r#""sectors":256,"writes":[]"#, "field name"),
        (r#""name":"a","writes":[]"#, "field sectors"),
        (r#""name":"a","sectors":256"#, "field writes"),
        (r#""name":"a","sectors":0,"writes":[]"#, "number sectors"),
        (r#""name":"a","sectors":536870912,"writes":[]"#, "ok"),
        (
            r#""name":"a","sectors":536870913,"writes":[]"#,
            "number sectors",
        ),
        (r#""name":"a","sectors":"256","writes":[]"#, "field sectors"),
        (r#""name":"a","sectors":256,"writes":{}"#, "field writes"),
        (r#""name":"a","sectors":256,"writes":5"#, "field writes"),
        (r#""name":"a","sectors":256,"writes":null"#, "field writes"),
        (r#""name":5,"sectors":0,"writes":5"#, "field name"),
        (r#""name":"a","sectors":0,"writes":5"#, "number sectors"),
    ];
    let front = r#"{"cmd":"move","#;
    answer(&rt, rt.alloc(), front, ROWS, "}")
}

#[test]
fn a_write_of_a_move_is_a_list_of_three_numbers(rt: HostRuntime) -> Result<(), Fail> {
    const ROWS: &[(&str, &str)] = &[
        ("[]", "ok"),
        ("[[0,1,2]]", "ok"),
        ("[[0,1,2],[3,128,255]]", "ok"),
        ("[[18446744073709551615,1,2]]", "ok"),
        ("[[18446744073709551616,1,2]]", "number writes"),
        ("[[0,0,2]]", "number writes"),
        ("[[0,129,2]]", "number writes"),
        ("[[0,1,256]]", "number writes"),
        ("[[0,1,-0]]", "number writes"),
        ("[[0,1]]", "field writes"),
        ("[[0]]", "field writes"),
        ("[[]]", "field writes"),
        ("[[0,1,2,3]]", "field writes"),
        ("[5]", "field writes"),
        ("[null]", "field writes"),
        (r#"["0,1,2"]"#, "field writes"),
        (r#"[{"0":0}]"#, "field writes"),
        ("[[[0],1,2]]", "field writes"),
        ("[[[[]]]]", "field writes"),
        ("[[0,1,[2]]]", "field writes"),
    ];
    let front = r#"{"cmd":"move","name":"a","sectors":1,"writes":"#;
    answer(&rt, rt.alloc(), front, ROWS, "}")
}

#[test]
fn the_first_thing_wrong_with_a_write_is_told(rt: HostRuntime) -> Result<(), Fail> {
    const ROWS: &[(&str, &str)] = &[
        ("[[0,1,256,3]]", "number writes"),
        ("[[0,129]]", "number writes"),
        (r#"[[0,"1",256]]"#, "field writes"),
        (r#"[[-1,"1"]]"#, "number writes"),
        ("[[0,1,2],[0,1]]", "field writes"),
        ("[[0,1,2],[0,129,2]]", "number writes"),
        ("[[0,1],[0,129,2]]", "field writes"),
        ("[[0,129,2],[0,1]]", "number writes"),
        ("[[0,1,2],5]", "field writes"),
    ];
    let front = r#"{"cmd":"move","name":"a","sectors":1,"writes":"#;
    answer(&rt, rt.alloc(), front, ROWS, "}")
}

#[test]
fn a_machine_has_a_name_a_host_and_disks(rt: HostRuntime) -> Result<(), Fail> {
    const ROWS: &[(&str, &str)] = &[
        (r#""name":"a","host":"h","disks":[]"#, "ok"),
        (r#""name":"a","host":"h","disks":[0]"#, "ok"),
        (r#""name":"a","host":"h","disks":{"0":1}"#, "field disks"),
        (r#""name":"a","host":"h","disks":256"#, "field disks"),
        (r#""name":"a","host":"h""#, "field disks"),
        (r#""name":"a","disks":[]"#, "field host"),
        (r#""host":"h","disks":[]"#, "field name"),
        (r#""name":"a","host":"H","disks":5"#, "field host"),
        (r#""name":"a","host":7,"disks":[]"#, "field host"),
    ];
    let front = r#"{"cmd":"vm","#;
    answer(&rt, rt.alloc(), front, ROWS, "}")
}

#[test]
fn a_disk_is_a_number_of_64_bits(rt: HostRuntime) -> Result<(), Fail> {
    const ROWS: &[(&str, &str)] = &[
        ("[18446744073709551615,1]", "ok"),
        ("[18446744073709551616]", "number disks"),
        (r#"[1,"2"]"#, "field disks"),
        (r#"[1,-2,"2"]"#, "number disks"),
        (r#"[1,"2",-2]"#, "field disks"),
        ("[1.5]", "number disks"),
        ("[[1]]", "field disks"),
        ("[null]", "field disks"),
    ];
    let front = r#"{"cmd":"vm","name":"a","host":"h","disks":"#;
    answer(&rt, rt.alloc(), front, ROWS, "}")
}

#[test]
fn a_write_has_five_members(rt: HostRuntime) -> Result<(), Fail> {
    const ROWS: &[(&str, &str)] = &[
        (r#""vm":"a","disk":0,"first":0,"count":1,"fill":0"#, "ok"),
        (
            r#""vm":"a","disk":1,"first":9,"count":128,"fill":255"#,
            "ok",
        ),
        (
            r#""vm":"a","disk":4294967296,"first":0,"count":1,"fill":0"#,
            "number disk",
        ),
        (
            r#""vm":"a","disk":0,"first":-1,"count":1,"fill":0"#,
            "number first",
        ),
        (
            r#""vm":"a","disk":0,"first":0,"count":0,"fill":0"#,
            "number count",
        ),
        (
            r#""vm":"a","disk":0,"first":0,"count":129,"fill":0"#,
            "number count",
        ),
        (
            r#""vm":"a","disk":0,"first":0,"count":1,"fill":256"#,
            "number fill",
        ),
        (
            r#""vm":"a","disk":0,"first":0,"count":1,"fill":1.0"#,
            "number fill",
        ),
    ];
    let front = r#"{"cmd":"write","#;
    answer(&rt, rt.alloc(), front, ROWS, "}")
}

#[test]
fn a_member_of_a_write_that_is_missing_is_told(rt: HostRuntime) -> Result<(), Fail> {
    const ROWS: &[(&str, &str)] = &[
        (r#""disk":0,"first":0,"count":1,"fill":0"#, "field vm"),
        (r#""vm":"a","first":0,"count":1,"fill":0"#, "field disk"),
        (r#""vm":"a","disk":0,"count":1,"fill":0"#, "field first"),
        (r#""vm":"a","disk":0,"first":0,"fill":0"#, "field count"),
        (r#""vm":"a","disk":0,"first":0,"count":1"#, "field fill"),
    ];
    let front = r#"{"cmd":"write","#;
    answer(&rt, rt.alloc(), front, ROWS, "}")
}

#[test]
fn enable_has_a_machine(rt: HostRuntime) -> Result<(), Fail> {
    const ROWS: &[(&str, &str)] = &[
        (r#""vm":"a""#, "ok"),
        (r#""vm":"A""#, "field vm"),
        (r#""vm":1"#, "field vm"),
        (r#""vm":"a","disk":0"#, "field disk"),
        (r#""disk":0"#, "field vm"),
    ];
    let front = r#"{"cmd":"enable","#;
    answer(&rt, rt.alloc(), front, ROWS, "}")
}

#[test]
fn snapshot_has_a_machine(rt: HostRuntime) -> Result<(), Fail> {
    const ROWS: &[(&str, &str)] = &[
        (r#""vm":"a""#, "ok"),
        (r#""vm":"A""#, "field vm"),
        (r#""vm":1"#, "field vm"),
        (r#""vm":"a","disk":0"#, "field disk"),
        (r#""disk":0"#, "field vm"),
    ];
    let front = r#"{"cmd":"snapshot","#;
    answer(&rt, rt.alloc(), front, ROWS, "}")
}

#[test]
fn cancel_has_a_machine(rt: HostRuntime) -> Result<(), Fail> {
    const ROWS: &[(&str, &str)] = &[
        (r#""vm":"a""#, "ok"),
        (r#""vm":"A""#, "field vm"),
        (r#""vm":1"#, "field vm"),
        (r#""vm":"a","disk":0"#, "field disk"),
        (r#""disk":0"#, "field vm"),
    ];
    let front = r#"{"cmd":"cancel","#;
    answer(&rt, rt.alloc(), front, ROWS, "}")
}

#[test]
fn start_has_a_plan(rt: HostRuntime) -> Result<(), Fail> {
    const ROWS: &[(&str, &str)] = &[
        (r#""plan":"p""#, "ok"),
        (r#""plan":"""#, "field plan"),
        (r#""plan":1"#, "field plan"),
        (r#""plan":"p","vm":"a""#, "field vm"),
        (r#""vm":"a""#, "field plan"),
    ];
    let front = r#"{"cmd":"start","#;
    answer(&rt, rt.alloc(), front, ROWS, "}")
}

#[test]
fn remove_has_a_machine_and_a_snapshot(rt: HostRuntime) -> Result<(), Fail> {
    const ROWS: &[(&str, &str)] = &[
        (r#""vm":"a","snapshot":1"#, "ok"),
        (r#""vm":"a","snapshot":0"#, "ok"),
        (r#""vm":"a","snapshot":4294967295"#, "ok"),
        (r#""vm":"a","snapshot":4294967296"#, "number snapshot"),
        (r#""vm":"a","snapshot":"1""#, "field snapshot"),
        (r#""vm":"a""#, "field snapshot"),
        (r#""snapshot":1"#, "field vm"),
        (r#""vm":"a","snapshot":1,"disk":1"#, "field disk"),
    ];
    let front = r#"{"cmd":"remove","#;
    answer(&rt, rt.alloc(), front, ROWS, "}")
}

#[test]
fn a_query_has_five_members(rt: HostRuntime) -> Result<(), Fail> {
    const ROWS: &[(&str, &str)] = &[
        (
            r#""vm":"a","snapshot":1,"disk":0,"since":"*","start":0"#,
            "ok",
        ),
        (r#""snapshot":1,"disk":0,"since":"*","start":0"#, "field vm"),
        (
            r#""vm":"a","disk":0,"since":"*","start":0"#,
            "field snapshot",
        ),
        (
            r#""vm":"a","snapshot":1,"since":"*","start":0"#,
            "field disk",
        ),
        (r#""vm":"a","snapshot":1,"disk":0,"start":0"#, "field since"),
        (
            r#""vm":"a","snapshot":1,"disk":0,"since":"*""#,
            "field start",
        ),
        (
            r#""vm":"A","snapshot":1,"disk":0,"since":"*","start":0"#,
            "field vm",
        ),
        (
            r#""vm":"a","snapshot":4294967296,"disk":0,"since":"*","start":0"#,
            "number snapshot",
        ),
        (
            r#""vm":"a","snapshot":1,"disk":4294967296,"since":"*","start":0"#,
            "number disk",
        ),
        (
            r#""vm":"a","snapshot":1,"disk":0,"since":5,"start":0"#,
            "field since",
        ),
        (
            r#""vm":"a","snapshot":1,"disk":0,"since":null,"start":0"#,
            "field since",
        ),
        (
            r#""vm":"a","snapshot":1,"disk":0,"since":"","start":0"#,
            "ok",
        ),
        (
            r#""vm":"a","snapshot":1,"disk":0,"since":"a text of any length","start":0"#,
            "ok",
        ),
    ];
    let front = r#"{"cmd":"query","#;
    answer(&rt, rt.alloc(), front, ROWS, "}")
}

#[test]
fn a_query_starts_where_a_sector_begins(rt: HostRuntime) -> Result<(), Fail> {
    const ROWS: &[(&str, &str)] = &[
        ("0", "ok"),
        ("1", "number start"),
        ("100", "number start"),
        ("511", "number start"),
        ("512", "ok"),
        ("513", "number start"),
        ("1024", "ok"),
        ("18446744073709551104", "ok"),
        ("18446744073709551615", "number start"),
        ("18446744073709551616", "number start"),
        ("512.0", "number start"),
        ("-512", "number start"),
        ("-0", "number start"),
        (r#""512""#, "field start"),
        ("null", "field start"),
    ];
    let front = r#"{"cmd":"query","vm":"a","snapshot":1,"disk":0,"since":"*","start":"#;
    answer(&rt, rt.alloc(), front, ROWS, "}")
}

#[test]
fn a_read_has_four_members_and_may_have_a_snapshot(rt: HostRuntime) -> Result<(), Fail> {
    const ROWS: &[(&str, &str)] = &[
        (r#""vm":"a","disk":0,"first":0,"count":1"#, "ok"),
        (
            r#""vm":"a","disk":0,"first":0,"count":16,"snapshot":4294967295"#,
            "ok",
        ),
        (r#""vm":"a","disk":0,"first":0,"count":17"#, "number count"),
        (r#""vm":"a","disk":0,"first":0,"count":0"#, "number count"),
        (
            r#""vm":"a","disk":0,"first":0,"count":1,"snapshot":4294967296"#,
            "number snapshot",
        ),
        (
            r#""vm":"a","disk":0,"first":0,"count":1,"snapshot":null"#,
            "field snapshot",
        ),
        (
            r#""vm":"a","disk":0,"first":0,"count":1,"snapshot":"1""#,
            "field snapshot",
        ),
        (r#""vm":"a","disk":0,"first":0"#, "field count"),
        (r#""vm":"a","disk":0,"count":1"#, "field first"),
        (r#""vm":"a","first":0,"count":1"#, "field disk"),
        (r#""disk":0,"first":0,"count":1"#, "field vm"),
        (
            r#""vm":"a","disk":0,"first":0,"count":17,"snapshot":null"#,
            "number count",
        ),
    ];
    let front = r#"{"cmd":"read","#;
    answer(&rt, rt.alloc(), front, ROWS, "}")
}

#[test]
fn power_is_a_truth_value(rt: HostRuntime) -> Result<(), Fail> {
    const ROWS: &[(&str, &str)] = &[
        (r#""vm":"a","on":true"#, "ok"),
        (r#""vm":"a","on":false"#, "ok"),
        (r#""vm":"a","on":1"#, "field on"),
        (r#""vm":"a","on":"true""#, "field on"),
        (r#""vm":"a","on":null"#, "field on"),
        (r#""vm":"a","on":[]"#, "field on"),
        (r#""vm":"a""#, "field on"),
        (r#""on":true"#, "field vm"),
    ];
    let front = r#"{"cmd":"power","#;
    answer(&rt, rt.alloc(), front, ROWS, "}")
}

#[test]
fn inventory_has_no_members(rt: HostRuntime) -> Result<(), Fail> {
    const ROWS: &[(&str, &str)] = &[(r#""vm":"a""#, "field vm"), (r#""b":1,"a":2"#, "field a")];
    let front = r#"{"cmd":"inventory","#;
    answer(&rt, rt.alloc(), front, ROWS, "}")
}

#[test]
fn status_has_no_members(rt: HostRuntime) -> Result<(), Fail> {
    const ROWS: &[(&str, &str)] = &[(r#""vm":"a""#, "field vm"), (r#""b":1,"a":2"#, "field a")];
    let front = r#"{"cmd":"status","#;
    answer(&rt, rt.alloc(), front, ROWS, "}")
}

#[test]
fn restart_has_no_members(rt: HostRuntime) -> Result<(), Fail> {
    const ROWS: &[(&str, &str)] = &[(r#""vm":"a""#, "field vm"), (r#""b":1,"a":2"#, "field a")];
    let front = r#"{"cmd":"restart","#;
    answer(&rt, rt.alloc(), front, ROWS, "}")
}

#[test]
fn quit_has_no_members(rt: HostRuntime) -> Result<(), Fail> {
    const ROWS: &[(&str, &str)] = &[(r#""vm":"a""#, "field vm"), (r#""b":1,"a":2"#, "field a")];
    let front = r#"{"cmd":"quit","#;
    answer(&rt, rt.alloc(), front, ROWS, "}")
}

#[test]
fn a_plan_has_a_name_machines_and_may_have_an_interval(rt: HostRuntime) -> Result<(), Fail> {
    const ROWS: &[(&str, &str)] = &[
        (r#""name":"p","vms":[]"#, "ok"),
        (r#""name":"p","vms":["a"]"#, "ok"),
        (r#""name":"p","vms":["a","a"],"interval":1"#, "ok"),
        (r#""name":"p","vms":["a"],"interval":10080"#, "ok"),
        (
            r#""name":"p","vms":["a"],"interval":10081"#,
            "number interval",
        ),
        (r#""name":"p","vms":["a"],"interval":0"#, "number interval"),
        (
            r#""name":"p","vms":["a"],"interval":null"#,
            "field interval",
        ),
        (r#""name":"p""#, "field vms"),
        (r#""vms":["a"]"#, "field name"),
        (r#""name":"p","vms":["A"],"interval":0"#, "field vms"),
        (r#""name":"P","vms":["A"],"interval":0"#, "field name"),
    ];
    let front = r#"{"cmd":"plan","#;
    answer(&rt, rt.alloc(), front, ROWS, "}")
}

#[test]
fn the_machines_of_a_plan_are_names(rt: HostRuntime) -> Result<(), Fail> {
    const ROWS: &[(&str, &str)] = &[
        (r#"["a","A"]"#, "field vms"),
        (r#"["a",5]"#, "field vms"),
        (r#"["a",["b"]]"#, "field vms"),
        (r#"["a",""]"#, "field vms"),
        (r#""a""#, "field vms"),
        ("{}", "field vms"),
        ("null", "field vms"),
        (r#"["aaaaaaaaaaaaaaaaaaaaaaaaaaaaaa-9"]"#, "ok"),
        (r#"["aaaaaaaaaaaaaaaaaaaaaaaaaaaaaa-9a"]"#, "field vms"),
    ];
    let front = r#"{"cmd":"plan","name":"p","vms":"#;
    answer(&rt, rt.alloc(), front, ROWS, "}")
}

#[test]
fn a_moment_has_one_spelling(rt: HostRuntime) -> Result<(), Fail> {
    const ROWS: &[(&str, &str)] = &[
        (r#""2024-05-01T10:00:00Z""#, "ok"),
        (r#""2000-01-01T00:00:00Z""#, "ok"),
        (r#""2999-12-31T23:59:59Z""#, "ok"),
        (r#""1999-12-31T23:59:59Z""#, "number at"),
        (r#""3000-01-01T00:00:00Z""#, "number at"),
        (r#""2024-02-29T00:00:00Z""#, "ok"),
        (r#""2023-02-29T00:00:00Z""#, "number at"),
        (r#""2024-05-01T24:00:00Z""#, "number at"),
        (r#""2024-05-01T10:00:60Z""#, "number at"),
        (r#""2024-05-01t10:00:00Z""#, "number at"),
        (r#""2024-05-01 10:00:00Z""#, "number at"),
        (r#""2024-05-01T10:00:00""#, "number at"),
        (r#""2024-05-01T10:00:00+00:00""#, "number at"),
        (r#""2024-13-01T10:00:00Z""#, "number at"),
        (r#""""#, "number at"),
        ("5", "field at"),
        ("null", "field at"),
    ];
    let front = r#"{"cmd":"run","workers":0,"at":"#;
    answer(&rt, rt.alloc(), front, ROWS, "}")
}

#[test]
fn a_run_has_up_to_64_workers(rt: HostRuntime) -> Result<(), Fail> {
    const ROWS: &[(&str, &str)] = &[
        ("0", "ok"),
        ("64", "ok"),
        ("65", "number workers"),
        ("-1", "number workers"),
        ("1.0", "number workers"),
        (r#""0""#, "field workers"),
        ("null", "field workers"),
    ];
    let front = r#"{"cmd":"run","at":"2024-05-01T10:00:00Z","workers":"#;
    answer(&rt, rt.alloc(), front, ROWS, "}")
}

#[test]
fn a_run_has_a_moment_and_workers(rt: HostRuntime) -> Result<(), Fail> {
    const ROWS: &[(&str, &str)] = &[
        (r#""at":"2024-05-01T10:00:00Z""#, "field workers"),
        (r#""at":"2024-05-01T10:00:00Z","workers":0"#, "ok"),
        (r#""workers":0"#, "field at"),
        (r#""at":"x","workers":65"#, "number at"),
        (r#""at":5,"workers":65"#, "field at"),
        (
            r#""at":"2024-05-01T10:00:00Z","workers":65,"guests":5"#,
            "number workers",
        ),
    ];
    let front = r#"{"cmd":"run","#;
    answer(&rt, rt.alloc(), front, ROWS, "}")
}

#[test]
fn guests_are_objects_of_three_members(rt: HostRuntime) -> Result<(), Fail> {
    const ROWS: &[(&str, &str)] = &[
        ("[]", "ok"),
        (r#"[{"vm":"a","seed":0,"count":0}]"#, "ok"),
        (
            r#"[{"vm":"a","seed":18446744073709551615,"count":9}]"#,
            "ok",
        ),
        (r#"[{"seed":0,"count":0}]"#, "field guests"),
        (r#"[{"vm":"a","count":0}]"#, "field guests"),
        (r#"[{"vm":"a","seed":0}]"#, "field guests"),
        (r#"[{"vm":"A","seed":0,"count":0}]"#, "field guests"),
        (r#"[{"vm":"a","seed":-1,"count":0}]"#, "number guests"),
        (
            r#"[{"vm":"a","seed":0,"count":18446744073709551616}]"#,
            "number guests",
        ),
        (r#"[{"vm":"a","seed":"0","count":-1}]"#, "field guests"),
        (r#"[{"vm":"a","seed":-1,"count":"0"}]"#, "number guests"),
        (r#"[{"vm":"a","seed":0,"count":0,"x":1}]"#, "field guests"),
        (r#"[{"vm":"a","seed":-1,"count":0,"x":1}]"#, "number guests"),
        ("[{}]", "field guests"),
        ("[5]", "field guests"),
        (r#"[["a",0,0]]"#, "field guests"),
        ("{}", "field guests"),
        ("null", "field guests"),
        ("5", "field guests"),
    ];
    let front = r#"{"cmd":"run","at":"2024-05-01T10:00:00Z","workers":0,"guests":"#;
    answer(&rt, rt.alloc(), front, ROWS, "}")
}

#[test]
fn the_first_guest_that_is_wrong_is_told(rt: HostRuntime) -> Result<(), Fail> {
    const ROWS: &[(&str, &str)] = &[
        (
            r#"[{"vm":"a","seed":0,"count":0},{"vm":"a","seed":0}]"#,
            "field guests",
        ),
        (
            r#"[{"vm":"a","seed":-1,"count":0},{"vm":"a","seed":0}]"#,
            "number guests",
        ),
        (
            r#"[{"vm":"a","seed":0},{"vm":"a","seed":-1,"count":0}]"#,
            "field guests",
        ),
        (
            r#"[{"vm":"a","seed":0,"seed":-1,"count":0}]"#,
            "number guests",
        ),
        (r#"[{"vm":"a","seed":-1,"seed":0,"count":0}]"#, "ok"),
    ];
    let front = r#"{"cmd":"run","at":"2024-05-01T10:00:00Z","workers":0,"guests":"#;
    answer(&rt, rt.alloc(), front, ROWS, "}")
}

#[test]
fn disturbances_are_objects_by_their_act(rt: HostRuntime) -> Result<(), Fail> {
    const ROWS: &[(&str, &str)] = &[
        ("[]", "ok"),
        (r#"[{"vm":"a","act":"reset","disk":0}]"#, "ok"),
        (
            r#"[{"vm":"a","act":"snapshot"},{"vm":"a","act":"on"}]"#,
            "ok",
        ),
        (
            r#"[{"vm":"a","act":"off"},{"vm":"a","act":"cancel"}]"#,
            "ok",
        ),
        (r#"[{"vm":"a","act":"reset"}]"#, "field disturb"),
        (
            r#"[{"vm":"a","act":"reset","disk":4294967296}]"#,
            "number disturb",
        ),
        (r#"[{"vm":"a","act":"reset","disk":"0"}]"#, "field disturb"),
        (r#"[{"vm":"a","act":"on","disk":0}]"#, "field disturb"),
        (r#"[{"vm":"a","act":"fly"}]"#, "field disturb"),
        (r#"[{"vm":"a","act":"Reset","disk":0}]"#, "field disturb"),
        (r#"[{"vm":"a","act":""}]"#, "field disturb"),
        (r#"[{"vm":"a","act":5}]"#, "field disturb"),
        (r#"[{"vm":"a"}]"#, "field disturb"),
        (r#"[{"act":"on"}]"#, "field disturb"),
        (r#"[{"vm":"A","act":"on"}]"#, "field disturb"),
        (r#"[{"vm":"a","act":"on","x":0}]"#, "field disturb"),
        (
            r#"[{"vm":"a","act":"reset","disk":-1,"x":0}]"#,
            "number disturb",
        ),
        ("[5]", "field disturb"),
        ("{}", "field disturb"),
        ("null", "field disturb"),
    ];
    let front = r#"{"cmd":"run","at":"2024-05-01T10:00:00Z","workers":0,"disturb":"#;
    answer(&rt, rt.alloc(), front, ROWS, "}")
}

#[test]
fn guests_are_told_before_disturbances(rt: HostRuntime) -> Result<(), Fail> {
    const ROWS: &[(&str, &str)] = &[
        (r#""workers":0,"guests":[5],"disturb":5"#, "field guests"),
        (r#""workers":0,"disturb":5,"guests":[]"#, "field disturb"),
        (r#""workers":65,"guests":[5],"disturb":5"#, "number workers"),
        (r#""workers":0,"disturb":[],"guests":[],"x":1"#, "field x"),
    ];
    let front = r#"{"cmd":"run","at":"2024-05-01T10:00:00Z","#;
    answer(&rt, rt.alloc(), front, ROWS, "}")
}

#[test]
fn a_cutover_has_a_plan_and_may_have_a_moment(rt: HostRuntime) -> Result<(), Fail> {
    const ROWS: &[(&str, &str)] = &[
        (r#""plan":"p""#, "ok"),
        (r#""plan":"p","at":"2024-05-01T10:00:00Z""#, "ok"),
        (r#""plan":"p","at":"now""#, "number at"),
        (r#""plan":"p","at":"""#, "number at"),
        (r#""plan":"p","at":null"#, "field at"),
        (r#""plan":"p","at":5"#, "field at"),
        (r#""at":"now""#, "field plan"),
        (r#""plan":"P","at":"now""#, "field plan"),
        (r#""plan":"p","vm":"a""#, "field vm"),
    ];
    let front = r#"{"cmd":"cutover","#;
    answer(&rt, rt.alloc(), front, ROWS, "}")
}

#[test]
fn target_has_a_text_and_sectors(rt: HostRuntime) -> Result<(), Fail> {
    const ROWS: &[(&str, &str)] = &[
        (r#""volume":"t","first":0,"count":1"#, "ok"),
        (r#""volume":"","first":0,"count":1"#, "ok"),
        (
            r#""volume":"m1.d0","first":18446744073709551615,"count":16"#,
            "ok",
        ),
        (
            r#""volume":"A text of any length","first":0,"count":1"#,
            "ok",
        ),
        (r#""volume":5,"first":0,"count":1"#, "field volume"),
        (r#""volume":null,"first":0,"count":1"#, "field volume"),
        (
            r#""volume":"t","first":18446744073709551616,"count":1"#,
            "number first",
        ),
        (r#""volume":"t","first":0,"count":17"#, "number count"),
        (r#""volume":"t","first":0,"count":0"#, "number count"),
        (r#""volume":"t","first":0"#, "field count"),
        (r#""volume":"t","count":1"#, "field first"),
        (r#""first":0,"count":1"#, "field volume"),
    ];
    let front = r#"{"cmd":"target","#;
    answer(&rt, rt.alloc(), front, ROWS, "}")
}

#[test]
fn digest_has_a_text(rt: HostRuntime) -> Result<(), Fail> {
    const ROWS: &[(&str, &str)] = &[
        (r#""volume":"t""#, "ok"),
        (r#""volume":"""#, "ok"),
        (r#""volume":5"#, "field volume"),
        (r#""volume":["t"]"#, "field volume"),
        (r#""volume":"t","first":0"#, "field first"),
    ];
    let front = r#"{"cmd":"digest","#;
    answer(&rt, rt.alloc(), front, ROWS, "}")
}
