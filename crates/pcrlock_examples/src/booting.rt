//! Restarts with the logs of a machine, its logs as text, and the components that are expected.
use crate::harness::{Case, Content, File, are_so};
use std::test::Fail;

/// Logs and components.
const CASES: [Case; 3] = [
    Case {
        shows: "both logs are extended, each from its usual path",
        files: &[&[
            File {
                path: "/sys/kernel/security/tpm0/binary_bios_measurements",
                content: Content::Hex(
                    "00000000 03000000 00*20 21000000 53706563204944204576656e74303300 00000000 00 02 00 02 01000000 0b00 2000 00 00000000 04000000 01000000 0b00 df3f619804a92fdb4057192dc43dd748ea778adc52bc498ce80524c014b81119 04000000 00000000",
                ),
            },
            File {
                path: "/run/log/systemd/tpm2-measure.log",
                content: Content::User(&[(11, "enter-initrd"), (4, "k")]),
            },
        ]],
        script: "tpm-boot\nenroll --token t --literal 11 --key 0a\nenroll --token u --literal 0 --key 0b\ntpm-extend --pcr 11 --text x\nunseal --token u\nunseal --token t\n",
        out: "records 3\n= 0\nenrolled 81000000\n= 0\nenrolled 81000001\n= 0\n= 0\nkey 0b\n= 0\n= 1\n",
        err: "not literal: pcr 11 holds bc6d4a0276dd42d4d23d9a832ceae18b07b99883a25731ddc48ebbdf9fb83484, sealed to d15b0e8e244e65c40f024e95773f2347ce4ef3ffe6b597c9a14b50bbab6df319\n",
        status: 1,
        left: &[],
    },
    Case {
        shows: "logs that are not there, or are none",
        files: &[&[
            File {
                path: "c/x",
                content: Content::Text(""),
            },
            File {
                path: "two",
                content: Content::Hex(
                    "00000000 03000000 00*20 21000000 53706563204944204576656e74303300 00000000 00 02 00 02 01000000 0b00 2000 00 00000000 04000000 02000000 0b00 df3f619804a92fdb4057192dc43dd748ea778adc52bc498ce80524c014b81119 04000000 00000000",
                ),
            },
            File {
                path: "cut",
                content: Content::Hex(
                    "00000000 03000000 00*20 21000000 53706563204944204576656e74303300 00000000 00 02 00 02 01000000 0b00 2000 00 00000000 04000000 01000000 0b00 df3f619804a92fdb4057192dc43dd748ea778adc52bc498ce80524c014b81119",
                ),
            },
            File {
                path: "open",
                content: Content::Text("\u{1e}{}"),
            },
            File {
                path: "json",
                content: Content::Text("\u{1e}{}\n\u{1e}{\n"),
            },
        ]],
        script: "tpm-boot --firmware-log c\ntpm-boot --userspace-log n\ntpm-boot --firmware-log two\ntpm-boot --firmware-log cut --userspace-log n\ntpm-boot --userspace-log open\ncel --firmware-log n --userspace-log open\ncel --userspace-log json\nunseal --token t\n",
        out: "= 3\n= 3\n= 3\n= 3\n= 3\n= 3\n= 3\n= 7\n",
        err: "no such file: c\nno such file: n\nmalformed: two: 73\nmalformed: cut: 111\nmalformed: open: 3\nno such file: n\nmalformed: json: 1\nno token: t\n",
        status: 7,
        left: &[],
    },
    Case {
        shows: "components are merged, and masked by an empty file",
        files: &[&[
            File {
                path: "e/300-x.pcrlock",
                content: Content::Text(""),
            },
            File {
                path: "u/300-x.pcrlock",
                content: Content::Component(&[(4, "x")]),
            },
            File {
                path: "u/400-y.pcrlock",
                content: Content::Component(&[(4, "y")]),
            },
            File {
                path: "e/400-y.pcrlock.d/b.pcrlock",
                content: Content::Component(&[(4, "b")]),
            },
            File {
                path: "e/README",
                content: Content::Text("none"),
            },
            File {
                path: "e/400-y.pcrlock.d/none",
                content: Content::Text(""),
            },
            File {
                path: "/run/pcrlock.d/500-z.pcrlock",
                content: Content::Text("{\"records\":[]}"),
            },
        ]],
        script: "list-components --components e,u\nlist-components --components u,e\nlist-components --components n\nlist-components\n",
        out: "400-y - 1\n400-y b 1\n= 0\n300-x - 1\n400-y - 1\n400-y b 1\n= 0\n= 0\n500-z - 0\n= 0\n",
        err: "",
        status: 0,
        left: &[],
    },
];

#[test]
fn logs_are_extended_and_printed(rt: HostRuntime) -> Result<(), Fail> {
    are_so(&rt, rt.alloc(), &CASES)
}
