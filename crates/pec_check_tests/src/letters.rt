//! Letters about a message of alice, at alfa, to bob and to carl, at beta, by their names. Lines end with a line feed
//! here and with CRLF where they are used; words in capitals stand for those of a letter.

use std::alloc::Global;

/// An envelope, accepted at 1704186060.
const ENVELOPE: &str = r#"X-Trasporto: posta-certificata
X-TipoRicevuta: completa
Message-ID: <pec.0001234@alfa.example>
Date: Tue, 02 Jan 2024 10:01:00 +0100
To: bob@beta.example, carl@beta.example
MIME-Version: 1.0
Content-Type: multipart/mixed; boundary="=_pec_0"

--=_pec_0
Content-Type: message/rfc822; name="postacert.eml"

From: alice@alfa.example
To: bob@beta.example, carl@beta.example
Subject: Ciao

Salve
--=_pec_0
Content-Type: application/xml; name="daticert.xml"

CERTIFICATE
--=_pec_0--
"#;

/// A receipt or a notice.
const RECEIPT: &str = r#"X-Ricevuta: WORD
FIELDX-Riferimento-Message-ID: <pec.0001234@alfa.example>
Date: Tue, 02 Jan 2024 10:01:00 +0100
MIME-Version: 1.0
Content-Type: multipart/mixed; boundary="=_pec_0"

--=_pec_0
Content-Type: application/xml; name="daticert.xml"

CERTIFICATE
--=_pec_0--
"#;

/// An acknowledgement.
const ACKNOWLEDGEMENT: &str = r#"X-Riscontro: pec.0001234@alfa.example RECIPIENT
X-Riferimento-Message-ID: <pec.0001234@alfa.example>
Date: Tue, 02 Jan 2024 10:01:00 +0100

ricevuto
"#;

/// What the first two certify.
const CERTIFICATE: &str = r#"<?xml version="1.0" encoding="UTF-8"?>
<postacert tipo="WORD" errore="ERROR">
<intestazione>
<mittente>alice@alfa.example</mittente>
<destinatari tipo="certificato">bob@beta.example</destinatari>
<destinatari tipo="certificato">carl@beta.example</destinatari>
<risposte>alice@alfa.example</risposte>
<oggetto>Ciao</oggetto>
</intestazione>
<dati>
<gestore-emittente>ISSUER</gestore-emittente>
<data zona="+0100">
<giorno>02/01/2024</giorno>
<ora>10:01:00</ora>
</data>
<identificativo>pec.0001234@alfa.example</identificativo>
DETAILS</dati>
</postacert>
"#;

/// A letter: its name and its text; the words of WORD and ERROR, the line of FIELD and the lines of DETAILS.
type Wording = (
    &'static str,
    &'static str,
    [&'static str; 2],
    &'static str,
    &'static str,
);

static WORDINGS: [Wording; 10] = [
    (
        "envelope",
        ENVELOPE,
        ["posta-certificata", "nessuno"],
        "",
        "<ricevuta tipo=\"completa\"/>\n",
    ),
    (
        "acceptance",
        RECEIPT,
        ["accettazione", "nessuno"],
        "",
        "<ricevuta tipo=\"completa\"/>\n",
    ),
    ("charge", RECEIPT, ["presa-in-carico", "nessuno"], "", ""),
    (
        "delivery",
        RECEIPT,
        ["avvenuta-consegna", "nessuno"],
        "X-TipoRicevuta: completa\n",
        "<ricevuta tipo=\"completa\"/>\n<consegna>RECIPIENT</consegna>\n",
    ),
    (
        "no-mailbox",
        RECEIPT,
        ["errore-consegna", "no-dest"],
        "",
        "<consegna>RECIPIENT</consegna>\n<errore-esteso>no-mailbox</errore-esteso>\n",
    ),
    (
        "mailbox-full",
        RECEIPT,
        ["errore-consegna", "altro"],
        "",
        "<consegna>RECIPIENT</consegna>\n<errore-esteso>mailbox-full</errore-esteso>\n",
    ),
    (
        "virus",
        RECEIPT,
        ["errore-consegna", "virus"],
        "X-VerificaSicurezza: errore\n",
        "<consegna>RECIPIENT</consegna>\n<errore-esteso>virus</errore-esteso>\n",
    ),
    (
        "virus-found",
        RECEIPT,
        ["rilevazione-virus", "virus"],
        "",
        "<consegna>RECIPIENT</consegna>\n<errore-esteso>virus</errore-esteso>\n",
    ),
    (
        "warning",
        RECEIPT,
        ["preavviso-errore-consegna", "altro"],
        "",
        "<consegna>RECIPIENT</consegna>\n<errore-esteso>12 ore</errore-esteso>\n",
    ),
    ("acknowledgement", ACKNOWLEDGEMENT, ["", ""], "", ""),
];

/// A letter by its name: who seals it, and the recipient whom it names.
pub(crate) type Saved = (&'static str, u32, &'static str);

/// The text of a letter, which certifies the provider that seals it as its issuer; none where there is no such letter.
pub(crate) fn letter_of(alloc: Global, saved: &Saved) -> String {
    for wording in &WORDINGS {
        if wording.0 == saved.0 {
            return worded(alloc, wording, saved);
        }
    }
    String::new(alloc)
}

fn worded(alloc: Global, wording: &Wording, saved: &Saved) -> String {
    let issuer = if saved.1 == 0 { "alfa" } else { "beta" };
    let text = replaced(alloc, wording.1, "CERTIFICATE", CERTIFICATE);
    let text = replaced(alloc, text.as_str(), "WORD", wording.2[0]);
    let text = replaced(alloc, text.as_str(), "ERROR", wording.2[1]);
    let text = replaced(alloc, text.as_str(), "FIELD", wording.3);
    let text = replaced(alloc, text.as_str(), "DETAILS", wording.4);
    let text = replaced(alloc, text.as_str(), "ISSUER", issuer);
    let text = replaced(alloc, text.as_str(), "RECIPIENT", saved.2);
    replaced(alloc, text.as_str(), "\n", "\r\n")
}

/// A text with other words for some. Where memory is wanting there is none, and it isn't what has to come.
pub(crate) fn replaced(alloc: Global, text: &str, words: &str, instead: &str) -> String {
    match text.replace(alloc, words, instead) {
        Ok(text) => text,
        Err(_) => String::new(alloc),
    }
}

/// The certification text in a letter; nothing where there is none.
pub(crate) fn certified(letter: &str) -> &str {
    match letter.split_once("name=\"daticert.xml\"\r\n\r\n") {
        Some((_, behind)) => before_the_end(behind),
        None => "",
    }
}

fn before_the_end(behind: &str) -> &str {
    match behind.split_once("\r\n--=_pec_0--") {
        Some((text, _)) => text,
        None => "",
    }
}
