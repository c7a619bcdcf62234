//! Keys that are sealed to the value of one PCR, their tokens, and the state file that they stand in.
use crate::harness::{Case, Content, File, are_so};
use std::test::Fail;

/// Keys and their tokens.
const CASES: [Case; 2] = [
    Case {
        shows: "a drawn key, once",
        files: &[],
        script: "enroll --token t --literal 17\nunseal --token t\nenroll --token u --literal 17\n",
        out: "enrolled 81000000\n= 0\nkey 0707070707070707070707070707070707070707070707070707070707070707\n= 0\n",
        err: "entropy fault\n",
        status: 5,
        left: &[],
    },
    Case {
        shows: "behind a line that has no random word nothing runs",
        files: &[],
        script: "enroll --token t --literal 17\nenroll --token u --literal 17\nenroll --token v --literal 17 --key 00\n",
        out: "enrolled 81000000\n= 0\n",
        err: "entropy fault\n",
        status: 5,
        left: &[
            File {
                path: "u",
                content: Content::Text(""),
            },
            File {
                path: "v",
                content: Content::Text(""),
            },
        ],
    },
];

#[test]
fn a_key_is_drawn_once(rt: HostRuntime) -> Result<(), Fail> {
    are_so(&rt, rt.alloc(), &CASES)
}
