//! The words of the command line.
use super::table::check;
use fp_words::{Job, Order, WordsFault, read_words};
use std::alloc::{AllocError, Global};
use std::test::Fail;

/// Words with `|` between them, and what they ask for: the directory, the roots, the analyses and what is shown, with `/`
/// between these parts and each item in parentheses.
const CASES: &str = "\
    --analyses|declared|--show|declared|--workers|1|d;d//(declared)/(declared)\n\
    --workers|1|--show|reach|--analyses|rta|d;d//(rta)/(reach)\n\
    --show|reach|--analyses|nope|--workers|1|d;d//(nope)/(reach)\n\
    --analyses|rta,assign,rta,immut,assign|--show|reach|--workers|1|d;d//(rta)(assign)(immut)/(reach)\n\
    --analyses|rta|--show|callees=M.main()V@7,inst|--workers|1|d|M.main()V;d/(M.main()V)/(rta)/(callees=M.main()V@7)(inst)\n\
    --analyses|rta|--show|inst,inst|--workers|1|d|r|s|r;d/(r)(s)(r)/(rta)/(inst)\n\
    --analyses|a b|--show|c d,e|--workers|1|my dir|a root;my dir/(a root)/(a b)/(c d)(e)\n\
    --analyses|ä,ö,ä|--show|é|--workers|1|dïr|ü;dïr/(ü)/(ä)(ö)/(é)\n\
    --analyses|rta|--show|reach|--workers|1|generate;generate//(rta)/(reach)\n\
    --analyses|rta|--show|reach|--workers|1|d=1|a,b|c-d;d=1/(a,b)(c-d)/(rta)/(reach)\n\
    --analyses|a=b|--show|=|--workers|1|help|version;help/(version)/(a=b)/(=)\n\
    ;usage\n\
    d;usage\n\
    --workers|1|d;usage\n\
    --analyses|rta|--workers|1|d;usage\n\
    --analyses|rta|--show|reach|d;usage\n\
    --analyses|rta|--show|reach|--workers|1;usage\n\
    --analyses=rta|--show|reach|--workers|1|d;usage\n\
    --analyses|rta|--show|reach|--workers=1|d;usage\n\
    --analyses=|rta|--show|reach|--workers|1|d;usage\n\
    --analyses|rta|--show|reach|--workers|65|d;usage\n\
    --analyses|rta|--show|reach|--workers|0|d;usage\n\
    --analyses|rta|--show|reach|--workers|2|d;usage\n\
    --analyses|rta|--show|reach|--workers|01|d;usage\n\
    --analyses|rta|--show|reach|--workers|+1|d;usage\n\
    --analyses|rta|--show|reach|--workers|1x|d;usage\n\
    --analyses|rta|--show|reach|--workers|4294967297|d;usage\n\
    --analyses|rta|--show|reach|--workers||d;usage\n\
    --analyses|rta|--analyses|rta|--show|reach|--workers|1|d;usage\n\
    --analyses|rta|--show|reach|--workers|1|--workers|1|d;usage\n\
    --analyses|rta|--show|reach|d|--workers|1;usage\n\
    --analyses|rta|--show|reach|--workers|1|d|--all;usage\n\
    --analyses|rta,,assign|--show|reach|--workers|1|d;usage\n\
    --analyses|,rta|--show|reach|--workers|1|d;usage\n\
    --analyses|rta|--show|reach,|--workers|1|d;usage\n\
    --analyses|rta|--show|,|--workers|1|d;usage\n\
    --analyses||--show|reach|--workers|1|d;usage\n\
    --analyses|rta|--show|reach|--workers|1|--|d;usage\n\
    --analyses|rta|--show|reach|--workers|1|d|--;usage\n\
    --analyses|rta|--show|reach|--workers|1|-d;usage\n\
    --analyses|rta|--show|reach|--workers|1|-;usage\n\
    --analyses|rta|--show|reach|--workers|1|;usage\n\
    --analyses|rta|--show|reach|--workers|1|d||r;usage\n\
    --analyses|rta|--show|reach|--workers|1|d|-r;usage\n\
    --analyses|--show|--show|reach|--workers|1|d;usage\n\
    --analys|rta|--show|reach|--workers|1|d;usage\n\
    -a|rta|--show|reach|--workers|1|d;usage\n\
    --Analyses|rta|--show|reach|--workers|1|d;usage\n\
    --help;usage\n\
    --version|--analyses|rta|--show|reach|--workers|1|d;usage\n\
    --analyses|rta|--show|reach|--workers|1|--all|--cycles|d;usage\n\
    --analyses|rta|--show|reach|--workers|1|--assume|a|d;usage\n\
    generate|--seed|0|--classes|1|--workers|1;usage\n\
    ";

/// Each text in parentheses.
fn items_text(alloc: Global, texts: &[String]) -> Result<String, AllocError> {
    let mut line = String::new(alloc);
    for text in texts {
        line.push('(')?;
        line.push_str(text)?;
        line.push(')')?;
    }
    Ok(line)
}

fn job_text(alloc: Global, job: &Job) -> Result<String, AllocError> {
    let roots = items_text(alloc, job.roots.as_slice())?;
    let analyses = items_text(alloc, job.analyses.as_slice())?;
    let show = items_text(alloc, job.show.as_slice())?;
    format!(in alloc; "{}/{roots}/{analyses}/{show}", job.dir)
}

/// What words ask for, as it stands in the table.
fn order_text(alloc: Global, words: &[String]) -> Result<String, AllocError> {
    match read_words(alloc, words) {
        Ok(Order::Run(job)) => job_text(alloc, &job),
        Ok(Order::Generate { .. }) => String::from_str(alloc, "generate"),
        Err(WordsFault::Usage) => String::from_str(alloc, "usage"),
        Err(WordsFault::Memory) => Err(AllocError),
    }
}

fn told(alloc: Global, line: &str) -> Result<String, Fail> {
    let mut words = Vec::new(alloc);
    for word in line.split('|') {
        words.push(String::from_str(alloc, word)?)?;
    }
    Ok(order_text(alloc, &words)?)
}

#[test]
fn the_words_of_the_grammar_alone_are_read(rt: HostRuntime) -> Result<(), Fail> {
    assert_eq!(rt; order_text(rt.alloc(), &[])?.as_str(), "usage");
    check(&rt, rt.alloc(), CASES, told)
}
