ghost use Rattle.std.specs.Prelude.{◌≡◌, Some, IfOk, IsUtf8};
ghost use Rattle.serde_json.specs.Read.{read};
ghost use Rattle.ct_info.specs.Info.{info_text, info_value as info_says};

use crate::entry::put_tests;
use crate::text::text_of;
use ct_base::{Blob, List, Name, NoMemory, TestDef};
use std::alloc::Global;

/// Writes the tests with these numbers as JSON, for editors.
///
/// Numbers count from 1, and a number without a test is left out. The text is one line with its
/// line feed, and the members of its objects are in byte order.
///
/// Source: CMake manual, ctest(1), Show as JSON Object Model. This project's choices:
/// - there is no backtrace graph;
/// - each test has its number and the configuration;
/// - the value of each property is a text;
/// - bytes from 128 up, in a text that is not UTF-8, are written as `?`.
pub fn info(
    alloc: Global,
    defs: &List<TestDef>,
    members: &List<u32>,
    config: &Name,
) -> Result<Blob, NoMemory>
    ensures text { IfOk result (λ text. text ≡ info_text (info_says defs.now members.now config.now)) }
    ensures utf8 { IfOk result IsUtf8 }
    ensures reads { IfOk result (λ text. read text ≡ Some (info_says defs.now members.now config.now)) }
{
    let config = text_of(alloc, config)?;
    let mut text = Blob::of(alloc, b"{\"kind\":\"ctestInfo\",\"tests\":[")?;
    put_tests(
        alloc,
        &mut text,
        defs.as_slice(),
        members.as_slice(),
        config.as_str(),
    )?;
    text.append(b",\"version\":{\"major\":1,\"minor\":0}}\n")?;
    Ok(text)
}
