// Lines whose command is named by a path.
use super::{Case, Fail, first_wrong};

static PATHS: [Case; 21] = [
    Case {
        text: b"/d/select.json?table=Site&query=title%3A%40This",
        want: ".json select table=Site query=title:@This\n",
    },
    Case {
        text: b"  /d/dump \n",
        want: "dump\n",
    },
    Case {
        text: b"/d/dump.json?output_type=x",
        want: ".json dump output_type=x\n",
    },
    Case {
        text: b"/d/dump.",
        want: "dump\n",
    },
    Case {
        text: b"/d/dump.json.x",
        want: ".json.x dump\n",
    },
    Case {
        text: b"/d/dump?",
        want: "dump\n",
    },
    Case {
        text: b"/d/",
        want: "UnknownCommand \n",
    },
    Case {
        text: b"/d/%73elect",
        want: "UnknownCommand %73elect\n",
    },
    Case {
        text: b"/d/x y?a=b",
        want: "UnknownCommand x y\n",
    },
    Case {
        text: b"/d/select?table=T&query",
        want: "select table=T\n",
    },
    Case {
        text: b"/d/select?&table=T&&",
        want: "select table=T\n",
    },
    Case {
        text: b"/d/select?table=a?b.c",
        want: "select table=a?b.c\n",
    },
    Case {
        text: b"/d/select?table=%FF+%e3%81%82",
        want: "select table=� あ\n",
    },
    Case {
        text: b"/d/select?.json",
        want: "UnknownArgument .json\n",
    },
    Case {
        text: b"/d/select?table=T&a%62=1",
        want: "UnknownArgument ab\n",
    },
    Case {
        text: b"/d/select?table=T&%74able=U",
        want: "RepeatedArgument table\n",
    },
    Case {
        text: b"/d/select",
        want: "MissingArgument table\n",
    },
    Case {
        text: b"/d/select?table=T&filter='x",
        want: "select table=T filter='x\n",
    },
    Case {
        text: b"\"/d/dump\"",
        want: "UnknownCommand /d/dump\n",
    },
    Case {
        text: b"/d",
        want: "UnknownCommand /d\n",
    },
    Case {
        text: b"/d/load?table=T\n[]\n/d/dump",
        want: "load values=[] table=T\ndump\n",
    },
];

#[test]
fn a_path_gives_its_command_and_its_pairs(rt: HostRuntime) -> Result<(), Fail> {
    assert_eq!(rt; first_wrong(rt.alloc(), &PATHS)?, None);
    Ok(())
}
