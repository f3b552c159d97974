//! Reports that another program makes of answers: as text, and as JSON.
ghost use Rattle.std.specs.Prelude.{ℕ, List, IfOk};
ghost use Rattle.report.specs.Named.{IsNamed, IsText};

use job_meaning::Answer;
use lambda_values::FaultKind;
use report::{json, text};
use std::alloc::{AllocError, Global};
use std::test::Fail;
use stream_tokens::Bytes;
use trace::Fault;

/// A name of these bytes.
fn name(alloc: Global, text: &str) -> Result<Bytes, AllocError>
    ensures { IfOk result (λ name. IsText name) }
{
    Ok(Bytes::from(text.as_bytes().to_vec(alloc)?))
}

#[test]
fn a_report_names_the_job_that_makes_another_unusable(rt: HostRuntime) -> Result<(), Fail> {
    let alloc = rt.alloc();
    let names = vec![in alloc; name(alloc, "z")?, name(alloc, "y_2")?]?;
    let too_long = Fault {
        kind: FaultKind::SourceTooLong,
        stage: 0,
        origin: None,
    };
    let answers = vec![in alloc; Answer::Fault(too_long), Answer::Unusable(0)]?;
    let report = text(alloc, &names, &answers)?;
    let lines = "z = fault source-too-long stage 0 item -\ny_2 = unusable z\n";
    assert!(rt; report.as_slice() == lines.as_bytes());
    let report = json(alloc, &names, &answers)?;
    let line = "[{\"fault\":\"source-too-long\",\"item\":null,\"name\":\"z\",\"stage\":0},\
        {\"name\":\"y_2\",\"unusable\":\"z\"}]\n";
    assert!(rt; report.as_slice() == line.as_bytes());
    Ok(())
}
