// Words, and the arguments that they are.
use super::{Case, Fail, first_wrong};

static WORDS: [Case; 10] = [
    Case {
        text: b"select 'a b' \"c\\\"d\" --filter 'it\\'s \\\\\\n\\t\\x'",
        want: "select table=a b match_columns=c\"d filter=it's \\\n\tx\n",
    },
    Case {
        text: b"select a\"b'c d\\ne",
        want: "select table=a\"b'c match_columns=d\\ne\n",
    },
    Case {
        text: b"select T '\"' \"'\"",
        want: "select table=T match_columns=\" query='\n",
    },
    Case {
        text: b"select T \"--query\" x",
        want: "select table=T match_columns=--query query=x\n",
    },
    Case {
        text: b"select T --query --filter",
        want: "select table=T query=--filter\n",
    },
    Case {
        text: b"select T --query ' '",
        want: "select table=T query= \n",
    },
    Case {
        text: b"select \xC3\xA9 \"\\\xC3\xA9\xE6\x97\xA5\"",
        want: "select table=é match_columns=é日\n",
    },
    Case {
        text: b"select\tT\t\tx",
        want: "select table=T match_columns=x\n",
    },
    Case {
        text: b"select T /d/x",
        want: "select table=T match_columns=/d/x\n",
    },
    Case {
        text: b"select a_name_of_a_table \"some \\\"longer\\\" text\"",
        want: "select table=a_name_of_a_table match_columns=some \"longer\" text\n",
    },
];

#[test]
fn quotes_and_escapes_stand_for_their_text(rt: HostRuntime) -> Result<(), Fail> {
    assert_eq!(rt; first_wrong(rt.alloc(), &WORDS)?, None);
    Ok(())
}

static ARGUMENTS: [Case; 35] = [
    Case {
        text: b"table_create a b c d e f g",
        want: "table_create name=a flags=b key_type=c value_type=d default_tokenizer=e normalizer=f token_filters=g\n",
    },
    Case {
        text: b"column_create a b c d e",
        want: "column_create table=a name=b flags=c type=d source=e\n",
    },
    Case {
        text: b"load a b c d e",
        want: "load values=a table=b columns=c ifexists=d input_type=e\n",
    },
    Case {
        text: b"delete a b c d",
        want: "delete table=a key=b id=c filter=d\n",
    },
    Case {
        text: b"select a b c d",
        want: "select table=a match_columns=b query=c filter=d\n",
    },
    Case {
        text: b"dump --command_version 1 --output_type json",
        want: "dump command_version=1 output_type=json\n",
    },
    Case {
        text: b"select T --sortby a --offset 1 --limit 2",
        want: "select table=T sort_keys=a offset=1 limit=2\n",
    },
    Case {
        text: b"select T --drilldown_sortby a --cache x",
        want: "select table=T drilldown_sort_keys=a cache=x\n",
    },
    Case {
        text: b"select T \"\" \"\" x",
        want: "select table=T filter=x\n",
    },
    Case {
        text: b"select T --query \"\"",
        want: "select table=T\n",
    },
    Case {
        text: b"select T -- x",
        want: "UnknownArgument \n",
    },
    Case {
        text: b"select a b c d e",
        want: "UnknownArgument e\n",
    },
    Case {
        text: b"select a b c d \"\"",
        want: "UnknownArgument \n",
    },
    Case {
        text: b"dump x",
        want: "UnknownArgument x\n",
    },
    Case {
        text: b"select T --zzz \"\"",
        want: "UnknownArgument zzz\n",
    },
    Case {
        text: b"select T --table U --zzz 1",
        want: "UnknownArgument zzz\n",
    },
    Case {
        text: b"select --zzz 1 --yyy 2",
        want: "UnknownArgument zzz\n",
    },
    Case {
        text: b"delete T --values x",
        want: "UnknownArgument values\n",
    },
    Case {
        text: b"select T --sortby n --sort_keys n",
        want: "RepeatedArgument sort_keys\n",
    },
    Case {
        text: b"select T --sort_keys n --sortby n",
        want: "RepeatedArgument sortby\n",
    },
    Case {
        text: b"select T --table U",
        want: "RepeatedArgument table\n",
    },
    Case {
        text: b"select --table U T",
        want: "RepeatedArgument table\n",
    },
    Case {
        text: b"select --query x --query y --query z",
        want: "RepeatedArgument query\n",
    },
    Case {
        text: b"select T --query \"\" --query x",
        want: "RepeatedArgument query\n",
    },
    Case {
        text: b"table_create",
        want: "MissingArgument name\n",
    },
    Case {
        text: b"column_create",
        want: "MissingArgument table\n",
    },
    Case {
        text: b"column_create T",
        want: "MissingArgument name\n",
    },
    Case {
        text: b"column_create T c",
        want: "MissingArgument type\n",
    },
    Case {
        text: b"load",
        want: "MissingArgument table\n",
    },
    Case {
        text: b"load x",
        want: "MissingArgument table\n",
    },
    Case {
        text: b"select \"\"",
        want: "MissingArgument table\n",
    },
    Case {
        text: b"delete --id 1",
        want: "MissingArgument table\n",
    },
    Case {
        text: b"delete T",
        want: "MissingArgument key\n",
    },
    Case {
        text: b"delete T --id 1",
        want: "delete table=T id=1\n",
    },
    Case {
        text: b"delete T --filter x",
        want: "delete table=T filter=x\n",
    },
];

static NAMED: [Case; 21] = [
    Case {
        text: b"table_create --value_type d --key_type c --flags b --name a",
        want: "table_create name=a flags=b key_type=c value_type=d\n",
    },
    Case {
        text: b"table_create a --normalizer f --default_tokenizer e",
        want: "table_create name=a default_tokenizer=e normalizer=f\n",
    },
    Case {
        text: b"table_create a --token_filters g",
        want: "table_create name=a token_filters=g\n",
    },
    Case {
        text: b"column_create --flags c --type d --name b --table a",
        want: "column_create table=a name=b flags=c type=d\n",
    },
    Case {
        text: b"column_create a b c d --source e",
        want: "column_create table=a name=b flags=c type=d source=e\n",
    },
    Case {
        text: b"load --columns c --table b --values a",
        want: "load values=a table=b columns=c\n",
    },
    Case {
        text: b"load a b --input_type e --ifexists d",
        want: "load values=a table=b ifexists=d input_type=e\n",
    },
    Case {
        text: b"delete --filter d --id c --key b --table a",
        want: "delete table=a key=b id=c filter=d\n",
    },
    Case {
        text: b"select --filter d --query c --match_columns b --table a",
        want: "select table=a match_columns=b query=c filter=d\n",
    },
    Case {
        text: b"select a --limit h --offset g --sort_keys e",
        want: "select table=a sort_keys=e offset=g limit=h\n",
    },
    Case {
        text: b"select a --output_columns f --cache n",
        want: "select table=a output_columns=f cache=n\n",
    },
    Case {
        text: b"select a --drilldown_sort_keys j --drilldown i",
        want: "select table=a drilldown=i drilldown_sort_keys=j\n",
    },
    Case {
        text: b"select a --drilldown_output_columns k",
        want: "select table=a drilldown_output_columns=k\n",
    },
    Case {
        text: b"select a --drilldown_limit m --drilldown_offset l",
        want: "select table=a drilldown_offset=l drilldown_limit=m\n",
    },
    Case {
        text: b"select a --match_escalation_threshold o --sortby e",
        want: "select table=a sort_keys=e match_escalation_threshold=o\n",
    },
    Case {
        text: b"select a --drilldown_sortby j",
        want: "select table=a drilldown_sort_keys=j\n",
    },
    Case {
        text: b"table_create a --output_type q --command_version p",
        want: "table_create name=a command_version=p output_type=q\n",
    },
    Case {
        text: b"column_create a b c d --output_type q --command_version p",
        want: "column_create table=a name=b flags=c type=d command_version=p output_type=q\n",
    },
    Case {
        text: b"load a b --output_type q --command_version p",
        want: "load values=a table=b command_version=p output_type=q\n",
    },
    Case {
        text: b"delete a b --output_type q --command_version p",
        want: "delete table=a key=b command_version=p output_type=q\n",
    },
    Case {
        text: b"select a --output_type q --command_version p",
        want: "select table=a command_version=p output_type=q\n",
    },
];

#[test]
fn every_parameter_is_given_by_its_name(rt: HostRuntime) -> Result<(), Fail> {
    assert_eq!(rt; first_wrong(rt.alloc(), &NAMED)?, None);
    Ok(())
}

#[test]
fn arguments_are_bound_by_place_and_by_name(rt: HostRuntime) -> Result<(), Fail> {
    assert_eq!(rt; first_wrong(rt.alloc(), &ARGUMENTS)?, None);
    Ok(())
}
