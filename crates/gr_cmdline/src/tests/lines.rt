// Lines, and the faults of what stands in them.
use super::{Case, Fail, first_wrong};

static LINES: [Case; 29] = [
    Case {
        text: b"",
        want: "",
    },
    Case {
        text: b"\n \t\n",
        want: "",
    },
    Case {
        text: b"dump",
        want: "dump\n",
    },
    Case {
        text: b" \tdump\t \n",
        want: "dump\n",
    },
    Case {
        text: b"# x\n \t# y\ndump\n",
        want: "dump\n",
    },
    Case {
        text: b"dump\r\n",
        want: "dump\n",
    },
    Case {
        text: b"dump\r",
        want: "UnknownCommand dump\r\n",
    },
    Case {
        text: b"dump\r\r\n",
        want: "UnknownCommand dump\r\n",
    },
    Case {
        text: b"\r\r\n",
        want: "UnknownCommand \r\n",
    },
    Case {
        text: b"\r\ndump",
        want: "dump\n",
    },
    Case {
        text: b"foo",
        want: "UnknownCommand foo\n",
    },
    Case {
        text: b"\"dump\"",
        want: "dump\n",
    },
    Case {
        text: b"--x",
        want: "UnknownCommand --x\n",
    },
    Case {
        text: b"--x y",
        want: "UnknownCommand --x\n",
    },
    Case {
        text: b"foo --x",
        want: "BadLine \n",
    },
    Case {
        text: b"foo \"x",
        want: "BadLine \n",
    },
    Case {
        text: b"foo \"x\"y",
        want: "BadLine \n",
    },
    Case {
        text: b"foo 'x\\",
        want: "BadLine \n",
    },
    Case {
        text: b"foo 'x\\'",
        want: "BadLine \n",
    },
    Case {
        text: b"dump --",
        want: "BadLine \n",
    },
    Case {
        text: b"foo\nbar\n",
        want: "UnknownCommand foo\nUnknownCommand bar\n",
    },
    Case {
        text: b"dump                                                         ",
        want: "LineTooLong \n",
    },
    Case {
        text: b"dump                                                        ",
        want: "dump\n",
    },
    Case {
        text: b"dump                                                        \r\n",
        want: "dump\n",
    },
    Case {
        text: b"                                                                      \n#                                                                      \ndump",
        want: "dump\n",
    },
    Case {
        text: b"foo 'xxxxxxxxxxxxxxxxxxxxxxxxxxxxxxxxxxxxxxxxxxxxxxxxxxxxxxxxxxxx\ndump",
        want: "LineTooLong \ndump\n",
    },
    Case {
        text: b"dump \xFF\ndump",
        want: "NotText \ndump\n",
    },
    Case {
        text: b"\xFF\xFF\xFF\xFF\xFF\xFF\xFF\xFF\xFF\xFF\xFF\xFF\xFF\xFF\xFF\xFF\xFF\xFF\xFF\xFF\xFF\xFF\xFF\xFF\xFF\xFF\xFF\xFF\xFF\xFF\xFF\xFF\xFF\xFF\xFF\xFF\xFF\xFF\xFF\xFF\xFF\xFF\xFF\xFF\xFF\xFF\xFF\xFF\xFF\xFF\xFF\xFF\xFF\xFF\xFF\xFF\xFF\xFF\xFF\xFF\xFF",
        want: "LineTooLong \n",
    },
    Case {
        text: b"'\xFF",
        want: "NotText \n",
    },
];

#[test]
fn a_line_gives_its_command_or_its_first_fault(rt: HostRuntime) -> Result<(), Fail> {
    assert_eq!(rt; first_wrong(rt.alloc(), &LINES)?, None);
    Ok(())
}
