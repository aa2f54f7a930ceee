use pts_certificate::{Certificate, CertificateFault, read_certificate};
use pts_check::{Form, Record, Term};
use pts_ctx::SystemFault;
use pts_samples::prints;
use std::alloc::Global;

/// The type `A` and the identity on it.
const IDENTITY: &str = "yarrow-certificate 1
sorts * #
axiom * #
rule * * *
assume A
t sort *
t sort #
n empty
n sort 0 0 1
qed
define i
t const A
t sort *
t var 0
t lam x 0 2
t pi _ 0 0
n empty
n const 0 0 1
n assume 1
n var 2 2 0
n const 2 0 1
n pi 0 4 1 1 4
n lam 0 3 4 3 5
qed
end
";

fn forms_are(proof: &Record, forms: &[Form]) -> bool {
    for (number, form) in forms.iter().enumerate() {
        if number >= proof.nodes() {
            return false;
        }
        if proof.node(number).form != *form {
            return false;
        }
    }
    proof.nodes() == forms.len()
}

fn is_identity(certificate: &Certificate) -> bool {
    match certificate.declarations.items() {
        [assumption, definition] => {
            assumption.name.text() == "A"
                && assumption.body.is_none()
                && matches!(&definition.body, Some(Term::Lam(_, _, _)))
                && definition.proof.nodes() == 7
        }
        _ => false,
    }
}

#[test]
fn a_certificate_is_read(rt: HostRuntime) {
    match read_certificate(rt.alloc(), IDENTITY.as_bytes()) {
        Ok(certificate) => assert!(rt; is_identity(&certificate)),
        Err(_) => assert!(rt; false),
    }
}

/// A declaration with a node of each form.
const FORMS: &str = "yarrow-certificate 1
sorts *
assume a
t var 0
t var 1
t var 2
n empty
n sort 0 1 2
n assume 1
n define 1
n bare 2
n const 0 1 2
n var 0 1 2
n thin 0 1 2 3
n pi 0 1 2 3 4
n lam 0 1 2 3 4
n app 0 1 2 3 4
n letsort 0 1 2 3
n let 0 1 2 3 4
n same 0 1 2
n left 0 1 2 3
n right 0 1 2 3
n capp 0 1 2 3 4
n clam 0 1 2 3 4
n cpi 0 1 2 3 4
n conv 0 1 2 3 4 5
qed
end
";

fn has_each_form(certificate: &Certificate) -> bool {
    let forms = [
        Form::Empty,
        Form::SortAt,
        Form::Assume,
        Form::Define,
        Form::Bare,
        Form::ConstAt,
        Form::VarAt,
        Form::Thin,
        Form::PiAt,
        Form::LamAt,
        Form::AppAt,
        Form::LetSort,
        Form::LetAt,
        Form::Same,
        Form::Left,
        Form::Right,
        Form::CongApp,
        Form::CongLam,
        Form::CongPi,
        Form::Conv,
    ];
    match certificate.declarations.items() {
        [declaration] => forms_are(&declaration.proof, &forms),
        _ => false,
    }
}

#[test]
fn every_form_of_node_is_read(rt: HostRuntime) {
    match read_certificate(rt.alloc(), FORMS.as_bytes()) {
        Ok(certificate) => assert!(rt; has_each_form(&certificate)),
        Err(_) => assert!(rt; false),
    }
}

fn is_bad_line(alloc: Global, text: &str, line: usize) -> bool {
    match read_certificate(alloc, text.as_bytes()) {
        Err(CertificateFault::BadLine(number)) => number == line,
        _ => false,
    }
}

fn is_truncated(alloc: Global, text: &str) -> bool {
    matches!(
        read_certificate(alloc, text.as_bytes()),
        Err(CertificateFault::Truncated)
    )
}

#[test]
fn the_first_line_that_is_refused_is_named(rt: HostRuntime) {
    let refused = [
        ("yarrow-certificate 1\r\r\nsorts *\nend\n", 1),
        ("yarrow-certificate 1\nsorts *  #\nend\n", 2),
        ("yarrow-certificate 1\nsorts *\nrule * * *\naxiom * *\n", 4),
        ("yarrow-certificate 1\nsorts *\nend\nfoo\n", 4),
        ("yarrow-certificate 1\nsorts *\nassume a\nqed\n", 4),
    ];
    for (text, line) in refused {
        assert!(rt; is_bad_line(rt.alloc(), text, line), "{text}");
    }
    assert!(rt; is_truncated(rt.alloc(), "yarrow-certificate 1\nsorts *\n"));
}

fn has_bad_number(alloc: Global, text: &str) -> bool {
    matches!(
        read_certificate(alloc, text.as_bytes()),
        Err(CertificateFault::BadNumber(4))
    )
}

fn is_no_system(alloc: Global, text: &str) -> bool {
    matches!(
        read_certificate(alloc, text.as_bytes()),
        Err(CertificateFault::System(_))
    )
}

#[test]
fn a_number_that_leads_nowhere_is_refused(rt: HostRuntime) {
    let text = "yarrow-certificate 1\nsorts *\nassume a\nt var 01\n";
    assert!(rt; has_bad_number(rt.alloc(), text));
    assert!(rt; is_no_system(rt.alloc(), "yarrow-certificate 1\nsorts * *\nend\n"));
}

#[test]
fn refusals_of_certificates_are_printed(rt: HostRuntime) {
    let clash = SystemFault::AxiomClash(0, 1);
    let texts = [
        (CertificateFault::BadLine(4), "BadLine 4"),
        (CertificateFault::BadNumber(12), "BadNumber 12"),
        (CertificateFault::TooLarge(3), "TooLarge 3"),
        (CertificateFault::Truncated, "Truncated"),
        (CertificateFault::System(clash), "AxiomClash 0 1"),
        (CertificateFault::Memory, "Memory"),
    ];
    for (fault, text) in texts {
        assert!(rt; prints(rt.alloc(), &fault, text), "{text}");
    }
}
