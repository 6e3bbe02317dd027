//! Messages and the letters that carry them. Lines end with a line feed here and with CRLF in the tests, and `GAMMA`
//! stands for the domain of the third provider.

/// A message of one primary recipient.
pub(crate) const SALVE: &str = r#"From: alice@alfa.example
To: anna@alfa.example
Subject: Ciao

Salve
"#;

/// The seal line of its envelope, by another implementation of HMAC-SHA-256.
pub(crate) const SALVE_SEAL: &str =
    "X-Sigillo: alfa; YmmApmIDuSf74bl4tN6/rTDx8rhbG+0MDPrRwNmeEs4=\r\n";

/// Its envelope, without its seal: it was accepted at 1704186000.
pub(crate) const SALVE_ENVELOPE: &str = r#"X-Trasporto: posta-certificata
X-TipoRicevuta: completa
Message-ID: <pec.0000000@alfa.example>
Date: Tue, 02 Jan 2024 10:00:00 +0100
From: "Per conto di: alice@alfa.example" <posta-certificata@alfa.example>
Reply-To: alice@alfa.example
To: anna@alfa.example
Subject: POSTA CERTIFICATA: Ciao
MIME-Version: 1.0
Content-Type: multipart/mixed; boundary="=_pec_0"

--=_pec_0
Content-Type: text/plain; charset=us-ascii

Giorno 02/01/2024 ore 10:00:00 (+0100)
Mittente: alice@alfa.example
Oggetto: Ciao
Identificativo: pec.0000000@alfa.example
Messaggio di posta certificata; l'originale e' allegato.
--=_pec_0
Content-Type: message/rfc822; name="postacert.eml"
Content-Disposition: attachment; filename="postacert.eml"

From: alice@alfa.example
To: anna@alfa.example
Subject: Ciao

Salve

--=_pec_0
Content-Type: application/xml; name="daticert.xml"
Content-Disposition: attachment; filename="daticert.xml"

<?xml version="1.0" encoding="UTF-8"?>
<postacert tipo="posta-certificata" errore="nessuno">
<intestazione>
<mittente>alice@alfa.example</mittente>
<destinatari tipo="certificato">anna@alfa.example</destinatari>
<risposte>alice@alfa.example</risposte>
<oggetto>Ciao</oggetto>
</intestazione>
<dati>
<gestore-emittente>alfa</gestore-emittente>
<data zona="+0100">
<giorno>02/01/2024</giorno>
<ora>10:00:00</ora>
</data>
<identificativo>pec.0000000@alfa.example</identificativo>
<ricevuta tipo="completa"/>
</dati>
</postacert>

--=_pec_0--
"#;

/// A message with a recipient in both lists, an external one, a subject in UTF-8 and a line that begins as a delimiter.
pub(crate) const UFFICIO: &str = r#"From: Alice <alice@alfa.example>
To: "Bob, Ufficio" <bob@beta.example>, x@y.example,
 Anna <anna@alfa.example>
Cc: carl@beta.example, bob@beta.example
Subject: Perché <sì> & "no"
Message-ID: <c1@client.example>
Reply-To: Segreteria <s@alfa.example>
X-TipoRicevuta: breve

Salve
--=_pec_0 e oltre
"#;

/// Its envelope, without its seal: it was accepted at 1719824400.
pub(crate) const UFFICIO_ENVELOPE: &str = r#"X-Trasporto: posta-certificata
X-TipoRicevuta: breve
Message-ID: <pec.0000000@alfa.example>
X-Riferimento-Message-ID: <c1@client.example>
Date: Mon, 01 Jul 2024 11:00:00 +0200
From: "Per conto di: alice@alfa.example" <posta-certificata@alfa.example>
Reply-To: Segreteria <s@alfa.example>
To: bob@beta.example,
 x@y.example,
 anna@alfa.example
Cc: carl@beta.example
Subject: POSTA CERTIFICATA: Perch?? <s??> & "no"
MIME-Version: 1.0
Content-Type: multipart/mixed; boundary="=_pec_1"

--=_pec_1
Content-Type: text/plain; charset=us-ascii

Giorno 01/07/2024 ore 11:00:00 (+0200)
Mittente: alice@alfa.example
Oggetto: Perch?? <s??> & "no"
Identificativo: pec.0000000@alfa.example
Messaggio di posta certificata; l'originale e' allegato.
--=_pec_1
Content-Type: message/rfc822; name="postacert.eml"
Content-Disposition: attachment; filename="postacert.eml"

From: Alice <alice@alfa.example>
To: "Bob, Ufficio" <bob@beta.example>, x@y.example,
 Anna <anna@alfa.example>
Cc: carl@beta.example, bob@beta.example
Subject: Perché <sì> & "no"
Message-ID: <c1@client.example>
Reply-To: Segreteria <s@alfa.example>
X-TipoRicevuta: breve

Salve
--=_pec_0 e oltre

--=_pec_1
Content-Type: application/xml; name="daticert.xml"
Content-Disposition: attachment; filename="daticert.xml"

<?xml version="1.0" encoding="UTF-8"?>
<postacert tipo="posta-certificata" errore="nessuno">
<intestazione>
<mittente>alice@alfa.example</mittente>
<destinatari tipo="certificato">bob@beta.example</destinatari>
<destinatari tipo="esterno">x@y.example</destinatari>
<destinatari tipo="certificato">anna@alfa.example</destinatari>
<destinatari tipo="certificato">carl@beta.example</destinatari>
<risposte>Segreteria &lt;s@alfa.example&gt;</risposte>
<oggetto>Perch?? &lt;s??&gt; &amp; &quot;no&quot;</oggetto>
</intestazione>
<dati>
<gestore-emittente>alfa</gestore-emittente>
<data zona="+0200">
<giorno>01/07/2024</giorno>
<ora>11:00:00</ora>
</data>
<identificativo>pec.0000000@alfa.example</identificativo>
<msgid>&lt;c1@client.example&gt;</msgid>
<ricevuta tipo="breve"/>
</dati>
</postacert>

--=_pec_1--
"#;

/// A message without a subject or a reference, of a sender of 254 bytes.
pub(crate) const LONGEST: &str = r#"From: abcdefghilmnopqrs@GAMMA
To: bob@beta.example

Salve
"#;

/// Its envelope, without its seal: it was accepted at 0.
pub(crate) const LONGEST_ENVELOPE: &str = r#"X-Trasporto: posta-certificata
X-TipoRicevuta: completa
Message-ID: <pec.0000000@GAMMA>
Date: Thu, 01 Jan 1970 01:00:00 +0100
From: "Per conto di: abcdefghilmnopqrs@GAMMA" <posta-certificata@GAMMA>
Reply-To: abcdefghilmnopqrs@GAMMA
To: bob@beta.example
Subject: POSTA CERTIFICATA: 
MIME-Version: 1.0
Content-Type: multipart/mixed; boundary="=_pec_0"

--=_pec_0
Content-Type: text/plain; charset=us-ascii

Giorno 01/01/1970 ore 01:00:00 (+0100)
Mittente: abcdefghilmnopqrs@GAMMA
Oggetto: 
Identificativo: pec.0000000@GAMMA
Messaggio di posta certificata; l'originale e' allegato.
--=_pec_0
Content-Type: message/rfc822; name="postacert.eml"
Content-Disposition: attachment; filename="postacert.eml"

From: abcdefghilmnopqrs@GAMMA
To: bob@beta.example

Salve

--=_pec_0
Content-Type: application/xml; name="daticert.xml"
Content-Disposition: attachment; filename="daticert.xml"

<?xml version="1.0" encoding="UTF-8"?>
<postacert tipo="posta-certificata" errore="nessuno">
<intestazione>
<mittente>abcdefghilmnopqrs@GAMMA</mittente>
<destinatari tipo="certificato">bob@beta.example</destinatari>
<risposte>abcdefghilmnopqrs@GAMMA</risposte>
</intestazione>
<dati>
<gestore-emittente>gamma</gestore-emittente>
<data zona="+0100">
<giorno>01/01/1970</giorno>
<ora>01:00:00</ora>
</data>
<identificativo>pec.0000000@GAMMA</identificativo>
<ricevuta tipo="completa"/>
</dati>
</postacert>

--=_pec_0--
"#;

/// What is no certified mail.
pub(crate) const PROVA: &str = r#"From: x@y.example
Subject: Prova

ciao
"#;

/// Its anomaly, without its seal: entry 7 of `beta`, at 1704186001.
pub(crate) const PROVA_ANOMALY: &str = r#"X-Trasporto: errore
Message-ID: <ano.7@beta.example>
Date: Tue, 02 Jan 2024 10:00:01 +0100
From: posta-certificata@beta.example
Subject: ANOMALIA MESSAGGIO: Prova
MIME-Version: 1.0
Content-Type: multipart/mixed; boundary="=_pec_0"

--=_pec_0
Content-Type: text/plain; charset=us-ascii

Giorno 02/01/2024 ore 10:00:01 (+0100)
Messaggio non di posta certificata; e' allegato.
--=_pec_0
Content-Type: message/rfc822; name="postacert.eml"
Content-Disposition: attachment; filename="postacert.eml"

From: x@y.example
Subject: Prova

ciao

--=_pec_0--
"#;

/// What has no head.
pub(crate) const HEADLESS: &str = r#"Per: nessuno
non una testata
"#;

/// Its anomaly, without its seal: entry 1234567 of `alfa`, at 1719824400.
pub(crate) const HEADLESS_ANOMALY: &str = r#"X-Trasporto: errore
Message-ID: <ano.1234567@alfa.example>
Date: Mon, 01 Jul 2024 11:00:00 +0200
From: posta-certificata@alfa.example
Subject: ANOMALIA MESSAGGIO: 
MIME-Version: 1.0
Content-Type: multipart/mixed; boundary="=_pec_0"

--=_pec_0
Content-Type: text/plain; charset=us-ascii

Giorno 01/07/2024 ore 11:00:00 (+0200)
Messaggio non di posta certificata; e' allegato.
--=_pec_0
Content-Type: message/rfc822; name="postacert.eml"
Content-Disposition: attachment; filename="postacert.eml"

Per: nessuno
non una testata

--=_pec_0--
"#;
