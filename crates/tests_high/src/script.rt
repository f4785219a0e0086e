//! The text of a script that has each kind of step, which no command writes, and the two causes of a text that is no
//! script, which a command answers alike.

use dd_script::{ScriptFault, Text, read_steps, script_text};
use std::alloc::{AllocError, Global};
use std::test::Fail;

/// A script with each kind of step, as it is written.
const WRITTEN: &[u8] = b"{\"capacity\":100,\"clients\":[1,9],\"modes\":[[4,3,1],[3,4,0]],\
    \"privileged\":[9],\"steps\":[{\"call\":\"duplicate\",\"client\":1},{\"present\":[\
    {\"colour\":\"ff8001\",\"fill\":[1,0,4,2]},\
    {\"blit\":[1,0,3,1],\"colours\":\"ff8001000102\"},\
    {\"colours\":\"00ff00\",\"cover\":[3,2,4,3]},\
    {\"from\":[-3,7],\"scroll\":[2,-1,4,1]}]},\
    {\"call\":\"acquire\",\"client\":1},{\"call\":\"surface\",\"client\":1},\
    {\"call\":\"release\",\"client\":1},{\"call\":\"desc\",\"client\":2},\
    {\"call\":\"close\",\"client\":1},{\"mode\":7},{\"switch\":true},\
    {\"disconnect\":true},{\"reconnect\":true},\
    {\"pointer\":[-3,2],\"visible\":true},\
    {\"bytes\":\"c0008080\",\"height\":4,\"hot\":[1,-1],\"shape\":1,\"width\":2},\
    {\"buffer\":24,\"call\":\"moves\",\"client\":1},\
    {\"buffer\":0,\"call\":\"dirty\",\"client\":1},\
    {\"buffer\":524288,\"call\":\"shape\",\"client\":1}]}\n";

/// The same script, as a person may write it.
const TYPED: &[u8] = b" {\"modes\":[[4,3,1],[3,4,0]],\"capacity\":100,\"privileged\":[9],\
    \"clients\":[1,9],\"steps\":[{\"client\":1,\"call\":\"duplicate\"},{\"present\":[\
    {\"fill\":[1,0,4,2],\"colour\":\"fF8001\"},\
    {\"colours\":\"fF8001000102\",\"blit\":[1,0,3,1]},\
    {\"cover\":[3,2,4,3],\"colours\":\"00FF00\"},\
    {\"scroll\":[2,-1,4,1],\"from\":[-3,7]}]},\
    {\"client\":1,\"call\":\"acquire\"},{\"client\":1,\"call\":\"surface\"},\
    {\"client\":1,\"call\":\"release\"},{\"client\":2,\"call\":\"desc\"},\
    {\"client\":1,\"call\":\"close\"},{\"mode\":7},{\"switch\":true},\
    {\"disconnect\":true},{\"reconnect\":true},\
    {\"visible\":true,\"pointer\":[-3,2]},\
    {\"shape\":1,\"width\":2,\"height\":4,\"hot\":[1,-1],\"bytes\":\"C0008080\"},\
    {\"client\":1,\"call\":\"moves\",\"buffer\":24},\
    {\"client\":1,\"call\":\"dirty\",\"buffer\":0},\
    {\"client\":1,\"call\":\"shape\",\"buffer\":524288}]}";

/// The text of the script that a text is; nothing where it is none.
fn rewritten(alloc: Global, text: &[u8]) -> Result<Text, AllocError> {
    match read_steps(alloc, text) {
        Ok(script) => script_text(alloc, &script),
        Err(_) => Ok(Text::from_vec(Vec::new(alloc))),
    }
}

#[test]
fn each_kind_of_step_is_written(rt: HostRuntime) -> Result<(), Fail> {
    let alloc = rt.alloc();
    for text in [WRITTEN, TYPED] {
        assert_eq!(rt; rewritten(alloc, text)?.as_bytes(), WRITTEN);
    }
    Ok(())
}

/// Why a text is no script; nothing where it is one.
fn fault_of(alloc: Global, text: &[u8]) -> Option<ScriptFault> {
    read_steps(alloc, text).err()
}

#[test]
fn a_cause_is_told(rt: HostRuntime) -> Result<(), Fail> {
    let cases: [(&[u8], ScriptFault); 5] = [
        (b"[1e300]", ScriptFault::NotScript),
        (b"[1e400]", ScriptFault::NotJson),
        (b"", ScriptFault::NotJson),
        (b"\"\xff\"", ScriptFault::NotJson),
        (
            b"{\"modes\":[[1,1,1]],\"capacity\":9,\"privileged\":[],\"clients\":[1],\"steps\":[\
              {\"shape\":4,\"width\":1,\"height\":1,\"hot\":[0,0],\"bytes\":\"0f0f0f01\"}]}",
            ScriptFault::NotScript,
        ),
    ];
    for (text, want) in cases {
        assert_eq!(rt; fault_of(rt.alloc(), text), Some(want));
    }
    Ok(())
}
