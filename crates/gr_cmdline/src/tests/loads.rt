// Load data, on the load's own line and on those that follow.
use super::{Case, Fail, first_wrong};

static LOADS: [Case; 26] = [
    Case {
        text: b"load --table T --values '[]'\ndump",
        want: "load values=[] table=T\ndump\n",
    },
    Case {
        text: b"load --table T\n{\"a\":[1}\ndump",
        want: "load values={\"a\":[1} table=T\ndump\n",
    },
    Case {
        text: b"load --table T\n\n \t\n []\t\r\n",
        want: "load values=[] table=T\n",
    },
    Case {
        text: b"load --table T\n# x\ndump",
        want: "load values=# x table=T\ndump\n",
    },
    Case {
        text: b"load --table T\n\r\n\r\r\ndump",
        want: "load values=\r table=T\ndump\n",
    },
    Case {
        text: b"load --table T --values ''\n[]",
        want: "load values=[] table=T\n",
    },
    Case {
        text: b"load --table T\n[\n# c\n \n{\"_key\":\"a]\\\"]\"},\n\n [1]\n] \ndump",
        want: "load values=[\n# c\n{\"_key\":\"a]\\\"]\"},\n[1]\n] table=T\ndump\n",
    },
    Case {
        text: b"load --table T\n[\"]\n]\\\\\"\n]\ndump",
        want: "load values=[\"]\n]\\\\\"\n] table=T\ndump\n",
    },
    Case {
        text: b"load --table T\n[][\ndump",
        want: "load values=[][ table=T\ndump\n",
    },
    Case {
        text: b"load --table T\n[]]\ndump",
        want: "load values=[]] table=T\ndump\n",
    },
    Case {
        text: b"load --table T\n[\n[]\n]]\ndump",
        want: "load values=[\n[]\n]] table=T\ndump\n",
    },
    Case {
        text: b"load --table T\n",
        want: "UnfinishedLoad \n",
    },
    Case {
        text: b"load --table T",
        want: "UnfinishedLoad \n",
    },
    Case {
        text: b"load --table T\n \n",
        want: "UnfinishedLoad \n",
    },
    Case {
        text: b"load --table T\n[\ndump",
        want: "UnfinishedLoad \n",
    },
    Case {
        text: b"load --table T\n[\"]",
        want: "UnfinishedLoad \n",
    },
    Case {
        text: b"load --table T\nx",
        want: "load values=x table=T\n",
    },
    Case {
        text: b"load --table T\n[]\r",
        want: "load values=[]\r table=T\n",
    },
    Case {
        text: b"load --table T\n[                                                            \n]\ndump",
        want: "LineTooLong \ndump\n",
    },
    Case {
        text: b"load --table T\n[                                                           \r\n]\ndump",
        want: "load values=[\n] table=T\ndump\n",
    },
    Case {
        text: b"load --table T\n[\n                                                                      \n]\ndump",
        want: "load values=[\n] table=T\ndump\n",
    },
    Case {
        text: b"load --table T\n[\xFF\n]\ndump",
        want: "NotText \ndump\n",
    },
    Case {
        text: b"load --table T\n[\xFF",
        want: "NotText \n",
    },
    Case {
        text: b"load --table T\n[\xFF                                                            ",
        want: "LineTooLong \n",
    },
    Case {
        text: b"load --table T\n[\n\xE3\n\x81\n\x82]\n",
        want: "NotText \n",
    },
    Case {
        text: b"load\n[]\n",
        want: "MissingArgument table\nUnknownCommand []\n",
    },
];

#[test]
fn load_data_end_with_their_line(rt: HostRuntime) -> Result<(), Fail> {
    assert_eq!(rt; first_wrong(rt.alloc(), &LOADS)?, None);
    Ok(())
}
