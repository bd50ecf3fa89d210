//! Values of certificates, without memory: attributes of names, general names, the extension with an identifier and what it
//! says, the serial number, and for which hosts a certificate is.

ghost use Rattle.picky_asn1_x509.specs.Certificates.{certificate};
ghost use Rattle.x509_flat.specs.Constraints.{ConstraintsTold};
ghost use Rattle.x509_flat.specs.Hosts.{HostMatched};
ghost use Rattle.x509_flat.specs.Purposes.{PurposesFill};
ghost use Rattle.x509_flat.specs.Spans.{flat_span, flat_span_if};
ghost use Rattle.x509_flat.specs.Usages.{UsageTold};
ghost use Rattle.x509_flat.specs.Values.{GeneralNamesTold, NameFills, SpanTold};
ghost use Rattle.x509_values.specs.Certificates.{ExtensionCarried, SerialCarried};
ghost use Rattle.cimaroly_c.specs.Exports.{Answers, Arena};

use crate::over;
use x509_fields::Span;
use x509_flat::constraints::FlatConstraints;
use x509_flat::span::FlatSpan;
use x509_flat::usage::FlatUsage;
use x509_values::{AttributePlace, GeneralNamePlace};

/// Writes where the attributes of a certificate's subject stand to the front of a buffer, as far as there is room.
#[unsafe(no_mangle)]
pub extern "C" fn cimaroly_subject_attributes(
    der: &[u8],
    attributes: &mut [AttributePlace],
    count: &mut usize,
) -> u32
    ensures { Answers result (λ status. NameFills {A = Arena} (λ v. v.tbs_certificate.subject) der.now attributes.old attributes.new status count.new) }
{
    let told = over::subject_attributes(der, attributes);
    *count = told.size;
    told.status.number()
}

/// The same of its issuer.
#[unsafe(no_mangle)]
pub extern "C" fn cimaroly_issuer_attributes(
    der: &[u8],
    attributes: &mut [AttributePlace],
    count: &mut usize,
) -> u32
    ensures { Answers result (λ status. NameFills {A = Arena} (λ v. v.tbs_certificate.issuer) der.now attributes.old attributes.new status count.new) }
{
    let told = over::issuer_attributes(der, attributes);
    *count = told.size;
    told.status.number()
}

/// Writes where the general names of a list stand to the front of a buffer, as far as there is room.
#[unsafe(no_mangle)]
pub extern "C" fn cimaroly_general_names(
    value: &[u8],
    names: &mut [GeneralNamePlace],
    count: &mut usize,
) -> u32
    ensures { Answers result (λ status. GeneralNamesTold Arena value.now names.old names.new status count.new) }
{
    let told = over::general_names(value, names);
    *count = told.size;
    told.status.number()
}

/// Where the value stands of a certificate's first extension with an identifier.
#[unsafe(no_mangle)]
pub extern "C" fn cimaroly_find_extension(
    der: &[u8],
    identifier: &[u8],
    value: &mut FlatSpan,
) -> u32
    ensures { Answers result (λ status. SpanTold (certificate {A = Arena}) der.now flat_span_if (ExtensionCarried Arena identifier.now der.now) status value.new) }
{
    let told = over::find_extension(der, identifier);
    *value = told.fields;
    told.status.number()
}

/// Where the content of a certificate's serial number stands.
#[unsafe(no_mangle)]
pub extern "C" fn cimaroly_serial_number(der: &[u8], serial_number: &mut FlatSpan) -> u32
    ensures { Answers result (λ status. SpanTold (certificate {A = Arena}) der.now flat_span (SerialCarried Arena der.now) status serial_number.new) }
{
    let told = over::serial_number(der);
    *serial_number = told.fields;
    told.status.number()
}

/// What basic constraints say.
#[unsafe(no_mangle)]
pub extern "C" fn cimaroly_basic_constraints(value: &[u8], constraints: &mut FlatConstraints) -> u32
    ensures { Answers result (λ status. ConstraintsTold value.now status constraints.new) }
{
    let told = over::basic_constraints(value);
    *constraints = told.fields;
    told.status.number()
}

/// Writes where the purposes of an extended key usage stand to the front of a buffer, as far as there is room.
#[unsafe(no_mangle)]
pub extern "C" fn cimaroly_purposes(value: &[u8], purposes: &mut [Span], count: &mut usize) -> u32
    ensures { Answers result (λ status. PurposesFill value.now purposes.old purposes.new status count.new) }
{
    let told = over::purposes(value, purposes);
    *count = told.size;
    told.status.number()
}

/// What a key usage says.
#[unsafe(no_mangle)]
pub extern "C" fn cimaroly_key_usage(value: &[u8], usage: &mut FlatUsage) -> u32
    ensures { Answers result (λ status. UsageTold value.now status usage.new) }
{
    let told = over::key_usage(value);
    *usage = told.fields;
    told.status.number()
}

/// Whether a certificate is for a host.
#[unsafe(no_mangle)]
pub extern "C" fn cimaroly_host_matches(der: &[u8], host: &[u8], matches: &mut bool) -> u32
    ensures { Answers result (λ status. HostMatched Arena host.now der.now status matches.new) }
{
    let told = over::host_matches(der, host);
    *matches = told.fields;
    told.status.number()
}
