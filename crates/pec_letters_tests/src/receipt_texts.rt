//! A message and the receipts about it, unsealed, as another program composed them. Lines end with a line feed here and
//! with CRLF in the tests; RECIPIENT, %1, %2 and %3 stand for words of the row.

use crate::texts::replaced;
use std::alloc::Global;

/// A letter whose text stands below. Tables name it, so that its text stands in no row.
#[derive(Clone, Copy)]
pub(crate) enum Form {
    Acceptance,
    Refusal,
    Charge,
    Delivery,
    Error,
    VirusNotice,
    Delay,
    Acknowledgement,
}

impl Form {
    /// Its text with its words: the address of RECIPIENT, and those of %1, %2 and %3.
    pub(crate) fn worded(self, alloc: Global, recipient: &str, words: &[&str; 3]) -> String {
        let text = replaced(alloc, self.text(), "RECIPIENT", recipient);
        let text = replaced(alloc, text.as_str(), "%1", words[0]);
        let text = replaced(alloc, text.as_str(), "%2", words[1]);
        replaced(alloc, text.as_str(), "%3", words[2])
    }

    fn text(self) -> &'static str {
        match self {
            Form::Acceptance => acceptance(),
            Form::Refusal => refusal(),
            Form::Charge => charge(),
            Form::Delivery => delivery(),
            Form::Error => error(),
            Form::VirusNotice => virus_notice(),
            Form::Delay => delay(),
            Form::Acknowledgement => acknowledgement(),
        }
    }
}

/// The texts, by functions without a clause.
fn acceptance() -> &'static str {
    ACCEPTANCE
}

fn refusal() -> &'static str {
    REFUSAL
}

fn charge() -> &'static str {
    CHARGE
}

fn delivery() -> &'static str {
    DELIVERY
}

fn error() -> &'static str {
    ERROR
}

fn virus_notice() -> &'static str {
    VIRUS_NOTICE
}

fn delay() -> &'static str {
    DELAY
}

fn acknowledgement() -> &'static str {
    ACKNOWLEDGEMENT
}

/// The message: of two primary recipients, one of them external, and a copy.
pub(crate) const MESSAGE: &str = r#"From: Alice <alice@alfa.example>
To: "Bob, Ufficio" <bob@beta.example>, x@y.example
Cc: carl@beta.example
Subject: Prova & "saluti"
Message-ID: <c1@client.example>
X-TipoRicevuta: completa
MIME-Version: 1.0
Content-Type: multipart/mixed; boundary=XYZ

--XYZ
Content-Type: text/plain

Buongiorno
--XYZ
Content-Type: application/octet-stream
Content-Disposition: attachment

abc
--XYZ--
"#;

/// The part of a delivery receipt that has the message.
pub(crate) const WHOLE: &str = r#"--=_pec_0
Content-Type: message/rfc822; name="postacert.eml"
Content-Disposition: attachment; filename="postacert.eml"

From: Alice <alice@alfa.example>
To: "Bob, Ufficio" <bob@beta.example>, x@y.example
Cc: carl@beta.example
Subject: Prova & "saluti"
Message-ID: <c1@client.example>
X-TipoRicevuta: completa
MIME-Version: 1.0
Content-Type: multipart/mixed; boundary=XYZ

--XYZ
Content-Type: text/plain

Buongiorno
--XYZ
Content-Type: application/octet-stream
Content-Disposition: attachment

abc
--XYZ--

"#;

/// The part that has its brief form. The digest is that of `abc` (FIPS 180-4, first example).
pub(crate) const SHORT: &str = r#"--=_pec_0
Content-Type: message/rfc822; name="postacert.eml"
Content-Disposition: attachment; filename="postacert.eml"

From: Alice <alice@alfa.example>
To: "Bob, Ufficio" <bob@beta.example>, x@y.example
Cc: carl@beta.example
Subject: Prova & "saluti"
Message-ID: <c1@client.example>
X-TipoRicevuta: breve
MIME-Version: 1.0
Content-Type: multipart/mixed; boundary=XYZ

--XYZ
Content-Type: text/plain

Buongiorno
--XYZ
Content-Type: text/plain; name="allegato.hash"
Content-Disposition: attachment; filename="allegato.hash"

ba7816bf8f01cfea414140de5dae2223b00361a396177a9cb410ff61f20015ad
--XYZ--

"#;

/// By `alfa`.
const ACCEPTANCE: &str = r#"X-Ricevuta: accettazione
Message-ID: <acc.0.0001234@alfa.example>
X-Riferimento-Message-ID: <pec.0001234@alfa.example>
Date: Tue, 02 Jan 2024 10:01:00 +0100
From: posta-certificata@alfa.example
To: alice@alfa.example
Subject: ACCETTAZIONE: Prova & "saluti"
MIME-Version: 1.0
Content-Type: multipart/mixed; boundary="=_pec_0"

--=_pec_0
Content-Type: text/plain; charset=us-ascii

Giorno 02/01/2024 ore 10:01:00 (+0100)
Mittente: alice@alfa.example
Oggetto: Prova & "saluti"
Identificativo: pec.0001234@alfa.example
Il messaggio e' stato accettato.
--=_pec_0
Content-Type: application/xml; name="daticert.xml"
Content-Disposition: attachment; filename="daticert.xml"

<?xml version="1.0" encoding="UTF-8"?>
<postacert tipo="accettazione" errore="nessuno">
<intestazione>
<mittente>alice@alfa.example</mittente>
<destinatari tipo="certificato">bob@beta.example</destinatari>
<destinatari tipo="esterno">x@y.example</destinatari>
<destinatari tipo="certificato">carl@beta.example</destinatari>
<risposte>alice@alfa.example</risposte>
<oggetto>Prova &amp; &quot;saluti&quot;</oggetto>
</intestazione>
<dati>
<gestore-emittente>alfa</gestore-emittente>
<data zona="+0100">
<giorno>02/01/2024</giorno>
<ora>10:01:00</ora>
</data>
<identificativo>pec.0001234@alfa.example</identificativo>
<msgid>&lt;c1@client.example&gt;</msgid>
<ricevuta tipo="completa"/>
</dati>
</postacert>

--=_pec_0--
"#;

/// By `alfa`: the error, the cause, and the field of a virus.
const REFUSAL: &str = r#"X-Ricevuta: non-accettazione
%3Message-ID: <nac.0.0001234@alfa.example>
X-Riferimento-Message-ID: <pec.0001234@alfa.example>
Date: Tue, 02 Jan 2024 10:01:00 +0100
From: posta-certificata@alfa.example
To: alice@alfa.example
Subject: AVVISO DI NON ACCETTAZIONE: Prova & "saluti"
MIME-Version: 1.0
Content-Type: multipart/mixed; boundary="=_pec_0"

--=_pec_0
Content-Type: text/plain; charset=us-ascii

Giorno 02/01/2024 ore 10:01:00 (+0100)
Mittente: alice@alfa.example
Oggetto: Prova & "saluti"
Identificativo: pec.0001234@alfa.example
Il messaggio non e' stato accettato: %2.
--=_pec_0
Content-Type: application/xml; name="daticert.xml"
Content-Disposition: attachment; filename="daticert.xml"

<?xml version="1.0" encoding="UTF-8"?>
<postacert tipo="non-accettazione" errore="%1">
<intestazione>
<mittente>alice@alfa.example</mittente>
<destinatari tipo="certificato">bob@beta.example</destinatari>
<destinatari tipo="esterno">x@y.example</destinatari>
<destinatari tipo="certificato">carl@beta.example</destinatari>
<risposte>alice@alfa.example</risposte>
<oggetto>Prova &amp; &quot;saluti&quot;</oggetto>
</intestazione>
<dati>
<gestore-emittente>alfa</gestore-emittente>
<data zona="+0100">
<giorno>02/01/2024</giorno>
<ora>10:01:00</ora>
</data>
<identificativo>pec.0001234@alfa.example</identificativo>
<msgid>&lt;c1@client.example&gt;</msgid>
<errore-esteso>%2</errore-esteso>
</dati>
</postacert>

--=_pec_0--
"#;

/// By `beta`.
const CHARGE: &str = r#"X-Ricevuta: presa-in-carico
Message-ID: <pic.0.0001234@beta.example>
X-Riferimento-Message-ID: <pec.0001234@alfa.example>
Date: Tue, 02 Jan 2024 10:01:00 +0100
From: posta-certificata@beta.example
To: ricevute@alfa.example
Subject: PRESA IN CARICO: Prova & "saluti"
MIME-Version: 1.0
Content-Type: multipart/mixed; boundary="=_pec_0"

--=_pec_0
Content-Type: text/plain; charset=us-ascii

Giorno 02/01/2024 ore 10:01:00 (+0100)
Mittente: alice@alfa.example
Oggetto: Prova & "saluti"
Identificativo: pec.0001234@alfa.example
Il messaggio e' stato preso in carico da beta.
--=_pec_0
Content-Type: application/xml; name="daticert.xml"
Content-Disposition: attachment; filename="daticert.xml"

<?xml version="1.0" encoding="UTF-8"?>
<postacert tipo="presa-in-carico" errore="nessuno">
<intestazione>
<mittente>alice@alfa.example</mittente>
<destinatari tipo="certificato">bob@beta.example</destinatari>
<destinatari tipo="esterno">x@y.example</destinatari>
<destinatari tipo="certificato">carl@beta.example</destinatari>
<risposte>alice@alfa.example</risposte>
<oggetto>Prova &amp; &quot;saluti&quot;</oggetto>
</intestazione>
<dati>
<gestore-emittente>beta</gestore-emittente>
<data zona="+0100">
<giorno>02/01/2024</giorno>
<ora>10:01:00</ora>
</data>
<identificativo>pec.0001234@alfa.example</identificativo>
<msgid>&lt;c1@client.example&gt;</msgid>
<ricezione>bob@beta.example</ricezione>
<ricezione>carl@beta.example</ricezione>
</dati>
</postacert>

--=_pec_0--
"#;

/// By `beta`: the wish, the part that has the message, and the recipient's place.
const DELIVERY: &str = r#"X-Ricevuta: avvenuta-consegna
X-TipoRicevuta: %1
Message-ID: <avc.0.0001234.%3@beta.example>
X-Riferimento-Message-ID: <pec.0001234@alfa.example>
Date: Tue, 02 Jan 2024 10:01:00 +0100
From: posta-certificata@beta.example
To: alice@alfa.example
Subject: CONSEGNA: Prova & "saluti"
MIME-Version: 1.0
Content-Type: multipart/mixed; boundary="=_pec_0"

--=_pec_0
Content-Type: text/plain; charset=us-ascii

Giorno 02/01/2024 ore 10:01:00 (+0100)
Mittente: alice@alfa.example
Oggetto: Prova & "saluti"
Identificativo: pec.0001234@alfa.example
Il messaggio e' stato consegnato a RECIPIENT.
%2--=_pec_0
Content-Type: application/xml; name="daticert.xml"
Content-Disposition: attachment; filename="daticert.xml"

<?xml version="1.0" encoding="UTF-8"?>
<postacert tipo="avvenuta-consegna" errore="nessuno">
<intestazione>
<mittente>alice@alfa.example</mittente>
<destinatari tipo="certificato">bob@beta.example</destinatari>
<destinatari tipo="esterno">x@y.example</destinatari>
<destinatari tipo="certificato">carl@beta.example</destinatari>
<risposte>alice@alfa.example</risposte>
<oggetto>Prova &amp; &quot;saluti&quot;</oggetto>
</intestazione>
<dati>
<gestore-emittente>beta</gestore-emittente>
<data zona="+0100">
<giorno>02/01/2024</giorno>
<ora>10:01:00</ora>
</data>
<identificativo>pec.0001234@alfa.example</identificativo>
<msgid>&lt;c1@client.example&gt;</msgid>
<ricevuta tipo="%1"/>
<consegna>RECIPIENT</consegna>
</dati>
</postacert>

--=_pec_0--
"#;

/// By `beta`, of the first recipient: the error, the decision, and the field of a virus.
const ERROR: &str = r#"X-Ricevuta: errore-consegna
%3Message-ID: <err.0.0001234.0@beta.example>
X-Riferimento-Message-ID: <pec.0001234@alfa.example>
Date: Tue, 02 Jan 2024 10:01:00 +0100
From: posta-certificata@beta.example
To: alice@alfa.example
Subject: AVVISO DI MANCATA CONSEGNA: Prova & "saluti"
MIME-Version: 1.0
Content-Type: multipart/mixed; boundary="=_pec_0"

--=_pec_0
Content-Type: text/plain; charset=us-ascii

Giorno 02/01/2024 ore 10:01:00 (+0100)
Mittente: alice@alfa.example
Oggetto: Prova & "saluti"
Identificativo: pec.0001234@alfa.example
Il messaggio non e' stato consegnato a RECIPIENT: %2.
--=_pec_0
Content-Type: application/xml; name="daticert.xml"
Content-Disposition: attachment; filename="daticert.xml"

<?xml version="1.0" encoding="UTF-8"?>
<postacert tipo="errore-consegna" errore="%1">
<intestazione>
<mittente>alice@alfa.example</mittente>
<destinatari tipo="certificato">bob@beta.example</destinatari>
<destinatari tipo="esterno">x@y.example</destinatari>
<destinatari tipo="certificato">carl@beta.example</destinatari>
<risposte>alice@alfa.example</risposte>
<oggetto>Prova &amp; &quot;saluti&quot;</oggetto>
</intestazione>
<dati>
<gestore-emittente>beta</gestore-emittente>
<data zona="+0100">
<giorno>02/01/2024</giorno>
<ora>10:01:00</ora>
</data>
<identificativo>pec.0001234@alfa.example</identificativo>
<msgid>&lt;c1@client.example&gt;</msgid>
<consegna>RECIPIENT</consegna>
<errore-esteso>%2</errore-esteso>
</dati>
</postacert>

--=_pec_0--
"#;

/// By `beta`, of the first recipient.
const VIRUS_NOTICE: &str = r#"X-Ricevuta: rilevazione-virus
Message-ID: <vir.0.0001234.0@beta.example>
X-Riferimento-Message-ID: <pec.0001234@alfa.example>
Date: Tue, 02 Jan 2024 10:01:00 +0100
From: posta-certificata@beta.example
To: ricevute@alfa.example
Subject: PROBLEMA DI SICUREZZA: Prova & "saluti"
MIME-Version: 1.0
Content-Type: multipart/mixed; boundary="=_pec_0"

--=_pec_0
Content-Type: text/plain; charset=us-ascii

Giorno 02/01/2024 ore 10:01:00 (+0100)
Mittente: alice@alfa.example
Oggetto: Prova & "saluti"
Identificativo: pec.0001234@alfa.example
Il messaggio per RECIPIENT contiene un virus.
--=_pec_0
Content-Type: application/xml; name="daticert.xml"
Content-Disposition: attachment; filename="daticert.xml"

<?xml version="1.0" encoding="UTF-8"?>
<postacert tipo="rilevazione-virus" errore="virus">
<intestazione>
<mittente>alice@alfa.example</mittente>
<destinatari tipo="certificato">bob@beta.example</destinatari>
<destinatari tipo="esterno">x@y.example</destinatari>
<destinatari tipo="certificato">carl@beta.example</destinatari>
<risposte>alice@alfa.example</risposte>
<oggetto>Prova &amp; &quot;saluti&quot;</oggetto>
</intestazione>
<dati>
<gestore-emittente>beta</gestore-emittente>
<data zona="+0100">
<giorno>02/01/2024</giorno>
<ora>10:01:00</ora>
</data>
<identificativo>pec.0001234@alfa.example</identificativo>
<msgid>&lt;c1@client.example&gt;</msgid>
<consegna>RECIPIENT</consegna>
<errore-esteso>virus</errore-esteso>
</dati>
</postacert>

--=_pec_0--
"#;

/// By `alfa`, of the first recipient: the tag, the phrase, and the time.
const DELAY: &str = r#"X-Ricevuta: preavviso-errore-consegna
Message-ID: <%1.0.0001234.0@alfa.example>
X-Riferimento-Message-ID: <pec.0001234@alfa.example>
Date: Tue, 02 Jan 2024 10:01:00 +0100
From: posta-certificata@alfa.example
To: alice@alfa.example
Subject: AVVISO DI MANCATA CONSEGNA PER SUPERAMENTO TEMPO MASSIMO: Prova & "saluti"
MIME-Version: 1.0
Content-Type: multipart/mixed; boundary="=_pec_0"

--=_pec_0
Content-Type: text/plain; charset=us-ascii

Giorno 02/01/2024 ore 10:01:00 (+0100)
Mittente: alice@alfa.example
Oggetto: Prova & "saluti"
Identificativo: pec.0001234@alfa.example
%2 non vi e' notizia di consegna a RECIPIENT.
--=_pec_0
Content-Type: application/xml; name="daticert.xml"
Content-Disposition: attachment; filename="daticert.xml"

<?xml version="1.0" encoding="UTF-8"?>
<postacert tipo="preavviso-errore-consegna" errore="altro">
<intestazione>
<mittente>alice@alfa.example</mittente>
<destinatari tipo="certificato">bob@beta.example</destinatari>
<destinatari tipo="esterno">x@y.example</destinatari>
<destinatari tipo="certificato">carl@beta.example</destinatari>
<risposte>alice@alfa.example</risposte>
<oggetto>Prova &amp; &quot;saluti&quot;</oggetto>
</intestazione>
<dati>
<gestore-emittente>alfa</gestore-emittente>
<data zona="+0100">
<giorno>02/01/2024</giorno>
<ora>10:01:00</ora>
</data>
<identificativo>pec.0001234@alfa.example</identificativo>
<msgid>&lt;c1@client.example&gt;</msgid>
<consegna>RECIPIENT</consegna>
<errore-esteso>%3</errore-esteso>
</dati>
</postacert>

--=_pec_0--
"#;

/// By `alfa`, of the first recipient.
const ACKNOWLEDGEMENT: &str = r#"X-Riscontro: pec.0001234@alfa.example RECIPIENT
Message-ID: <ris.0.0001234.0@alfa.example>
X-Riferimento-Message-ID: <pec.0001234@alfa.example>
Date: Tue, 02 Jan 2024 10:01:00 +0100
From: posta-certificata@alfa.example
To: ricevute@beta.example
Subject: RISCONTROProva & "saluti"

ricevuto
"#;
